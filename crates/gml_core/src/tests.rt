//! What no clause says: the faults of whole files from outside, and printed bytes.

ghost use Rattle.std.specs.Prelude.{◌<◌, ◌+◌, ◌^◌, length};

use super::*;
use std::alloc::Global;
use std::test::Fail;

/// What is said of the bytes: their first fault, or that they are the text of a tree.
fn said(alloc: Global, bytes: &[u8]) -> Result<String, Fail>
    requires { length bytes.now < 2 ^ 32 }
{
    match parse(alloc, bytes) {
        Ok(_tree) => Ok(format!(in alloc; "tree")?),
        Err(fault) => Ok(format!(in alloc; "{fault}")?),
    }
}

#[test]
fn names_the_first_fault(rt: HostRuntime) -> Result<(), Fail> {
    let rows: [(&str, &str); 16] = [
        ("", "tree"),
        ("graph", "key without value at 0"),
        ("graph [ ] ]", "stray token at 10"),
        ("graph [ x 9223372036854775808 ]", "big number at 10"),
        ("graph [ x 1e ]", "bad number at 10"),
        ("graph [ x @ ]", "bad byte at 10"),
        (
            "a [ a [ a [ a [ a [ a [ a [ a [ a [ a [ a [ a [ a [ a [ a [ a [ a [ a [ a [ a [ a [ a [ a [ a [ a [ a [ a [ a [ a [ a [ a [ a [ a [ ",
            "list too deep at 130",
        ),
        ("graph [ x [ y \"", "open string at 14"),
        ("graph [ x ]", "key without value at 8"),
        ("graph [ node [ id 1 label \"A", "open string at 26"),
        ("graph [ node [ id 1 ]", "unclosed list at 6"),
        ("\u{feff}graph [ x ]", "key without value at 11"),
        ("x 1.2.3", "bad number at 2"),
        ("x +", "bad number at 2"),
        ("graph[directed 0 weight 1e5 x -.5 y \"#\"]#", "tree"),
        ("x -9223372036854775808 y[z 1#]\n]", "tree"),
    ];
    for (text, answer) in rows {
        assert!(rt; text.len() < 1000);
        assert_eq!(rt;
            said(rt.alloc(), text.as_bytes())?.as_str(),
            answer,
            "{text}"
        );
    }
    Ok(())
}

/// A file as yEd writes it.
const FILE: &str =
    "Creator \"yFiles\"\nVersion \"2.17\"\ngraph\n[\n  hierarchic 1\n  label \"\"\n  directed 1\n  node\n  [\n    id 0\n    label \"A\"\n    graphics\n    [\n      x 12.5\n      y 30.0\n      type \"rectangle\"\n      fill \"#FFCC00\"\n    ]\n  ]\n  node\n  [\n    id 1\n    label \"B (1)\"\n  ]\n  edge\n  [\n    source 0\n    target 1\n    graphics\n    [\n      fill \"#000000\"\n      targetArrow \"standard\"\n    ]\n  ]\n]\n";

/// Its cuts: up to this length, from the row before on, this is said. By a reader written apart, in another language.
const CUTS: [(usize, &str); 62] = [
    (0, "tree"),
    (8, "key without value at 0"),
    (15, "open string at 8"),
    (17, "tree"),
    (25, "key without value at 17"),
    (30, "open string at 25"),
    (32, "tree"),
    (38, "key without value at 32"),
    (42, "unclosed list at 38"),
    (53, "key without value at 42"),
    (57, "unclosed list at 38"),
    (63, "key without value at 57"),
    (64, "open string at 63"),
    (68, "unclosed list at 38"),
    (77, "key without value at 68"),
    (81, "unclosed list at 38"),
    (88, "key without value at 81"),
    (94, "unclosed list at 88"),
    (97, "key without value at 94"),
    (103, "unclosed list at 88"),
    (109, "key without value at 103"),
    (111, "open string at 109"),
    (117, "unclosed list at 88"),
    (130, "key without value at 117"),
    (138, "unclosed list at 130"),
    (140, "key without value at 138"),
    (151, "unclosed list at 130"),
    (153, "key without value at 151"),
    (164, "unclosed list at 130"),
    (169, "key without value at 164"),
    (179, "open string at 169"),
    (187, "unclosed list at 130"),
    (192, "key without value at 187"),
    (200, "open string at 192"),
    (206, "unclosed list at 130"),
    (210, "unclosed list at 88"),
    (214, "unclosed list at 38"),
    (221, "key without value at 214"),
    (227, "unclosed list at 221"),
    (230, "key without value at 227"),
    (236, "unclosed list at 221"),
    (242, "key without value at 236"),
    (248, "open string at 242"),
    (252, "unclosed list at 221"),
    (256, "unclosed list at 38"),
    (263, "key without value at 256"),
    (269, "unclosed list at 263"),
    (276, "key without value at 269"),
    (282, "unclosed list at 263"),
    (289, "key without value at 282"),
    (295, "unclosed list at 263"),
    (308, "key without value at 295"),
    (316, "unclosed list at 308"),
    (321, "key without value at 316"),
    (329, "open string at 321"),
    (337, "unclosed list at 308"),
    (349, "key without value at 337"),
    (358, "open string at 349"),
    (364, "unclosed list at 308"),
    (368, "unclosed list at 263"),
    (370, "unclosed list at 38"),
    (372, "tree"),
];

#[test]
fn each_cut_has_its_first_fault(rt: HostRuntime) -> Result<(), Fail> {
    let bytes = FILE.as_bytes();
    let mut from = 0;
    for (last, answer) in CUTS {
        assert!(rt; last <= bytes.len());
        for n in from..=last {
            assert_eq!(rt;
                said(rt.alloc(), &bytes[..n])?.as_str(),
                answer,
                "cut at {n}"
            );
        }
        from = last + 1;
    }
    assert_eq!(rt; from, bytes.len() + 1);
    Ok(())
}

fn token(kind: TokenKind, from: u32, to: u32) -> Token {
    Token { kind, from, to }
}

#[test]
fn cuts_into_tokens(rt: HostRuntime) -> Result<(), Fail> {
    let tokens = lex(rt.alloc(), b"a[ \"b\" 1.5]#")?;
    let wanted = [
        token(TokenKind::Key, 0, 1),
        token(TokenKind::OpenList, 1, 2),
        token(TokenKind::Str, 3, 6),
        token(TokenKind::Real, 7, 10),
        token(TokenKind::CloseList, 10, 11),
    ];
    assert_eq!(rt; tokens.items(), wanted.as_slice());
    Ok(())
}

#[test]
fn names_the_first_faulty_token(rt: HostRuntime) -> Result<(), Fail> {
    let fault = match lex(rt.alloc(), b"a [ c ] @") {
        Ok(_) => format!(in rt.alloc(); "tokens")?,
        Err(fault) => format!(in rt.alloc(); "{fault}")?,
    };
    assert_eq!(rt; fault.as_str(), "bad byte at 8");
    Ok(())
}

#[test]
#[tactic(auto, unfolding(crate::specs::Lexing::token_at))]
fn prints_what_was_pushed(rt: HostRuntime) -> Result<(), Fail> {
    let alloc = rt.alloc();
    let mut node = Tree::new(alloc);
    node.push_int(b"id", -7)?;
    node.push_str(b"label", b"A")?;
    let mut tree = Tree::new(alloc);
    tree.push_str(b"label", b"A")?;
    tree.push_list(b"node", node)?;
    assert_eq!(rt; tree.len(), 2);
    assert_eq!(rt;
        print(alloc, &tree)?.bytes(),
        b"label \"A\"\nnode [\nid -7\nlabel \"A\"\n]\n".as_slice()
    );
    Ok(())
}

#[test]
#[tactic(auto, unfolding(crate::specs::Lexing::token_at))]
fn prints_the_shortest_and_the_longest_integer(rt: HostRuntime) -> Result<(), Fail> {
    let rows: [(i64, &str); 5] = [
        (0, "n 0\n"),
        (-1, "n -1\n"),
        (i64::MAX, "n 9223372036854775807\n"),
        (-i64::MAX, "n -9223372036854775807\n"),
        (i64::MIN, "n -9223372036854775808\n"),
    ];
    for (n, line) in rows {
        let mut tree = Tree::new(rt.alloc());
        tree.push_int(b"n", n)?;
        assert_eq!(rt;
            print(rt.alloc(), &tree)?.bytes(),
            line.as_bytes(),
            "{line}"
        );
    }
    Ok(())
}

/// What is said of the bytes, fed in two pieces.
fn said_in_two(alloc: Global, first: &[u8], second: &[u8]) -> Result<String, Fail>
    requires { length first.now + length second.now < 2 ^ 32 }
{
    let reader = TreeReader::new(alloc).feed(first)?.feed(second)?;
    match reader.finish() {
        Ok(_tree) => Ok(format!(in alloc; "tree")?),
        Err(fault) => Ok(format!(in alloc; "{fault}")?),
    }
}

#[test]
fn two_pieces_are_one(rt: HostRuntime) -> Result<(), Fail> {
    let texts = [
        "\u{feff}graph [ x ]",
        "graph[directed 0 weight 1e5 x -.5 y \"#\"]#",
        "graph [ x 1e ]",
        "graph [ x 9223372036854775808 ]",
        "graph [ x [ y \"",
    ];
    for text in texts {
        let bytes = text.as_bytes();
        assert!(rt; bytes.len() < 100);
        let whole = said(rt.alloc(), bytes)?;
        for n in 0..=bytes.len() {
            assert_eq!(rt;
                said_in_two(rt.alloc(), &bytes[..n], &bytes[n..])?.as_str(),
                whole.as_str(),
                "{text} at {n}"
            );
        }
    }
    Ok(())
}
