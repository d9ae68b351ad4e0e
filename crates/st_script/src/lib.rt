//! The records of a session: edits and questions that stand beside a graph in a text's own list.
//!
//! `read_script` takes them out of a tree in one pass, or names the first that hasn't the shape of its key. What a
//! record says stands in `specs/Script.antt`.
#![tactic(auto)]

mod fault;
mod items;
pub mod laws;
mod reading;
mod records;

pub use fault::ScriptFault;
pub use items::ScriptItem;
pub use reading::{Script, read_script};

#[cfg(test)]
mod tests {
    use super::*;
    use gml_core::parse;
    use std::alloc::Global;
    use std::test::Fail;

    fn read(alloc: Global, text: &[u8]) -> Result<Script, ScriptFault> {
        if text.len() > 400 {
            return Err(ScriptFault::NoMemory);
        }
        match parse(alloc, text) {
            Ok(tree) => read_script(alloc, &tree),
            Err(_) => Err(ScriptFault::NoMemory),
        }
    }

    /// The place of the first bad record. Want of memory is place 99.
    fn bad_at(alloc: Global, text: &[u8]) -> Option<u32> {
        match read(alloc, text) {
            Ok(_) => None,
            Err(ScriptFault::BadRecord { at }) => Some(at),
            Err(ScriptFault::NoMemory) => Some(99),
        }
    }

    #[test]
    fn names_the_first_bad_record(rt: HostRuntime) -> Result<(), Fail> {
        let alloc = rt.alloc();
        let rows: [(&[u8], Option<u32>); 14] = [
            (b"a[ask 1]", None),
            (b"a 1 ask 1", Some(4)),
            (b"ask[from 1]ask 1", Some(0)),
            (b"ask[from 1 to 2]ask 1 edit 1", Some(16)),
            (b"ask[from 1.5 to 2]", Some(0)),
            (b"ask[from \"1\" to 2]", Some(0)),
            (b"ask[from[]to 2]", Some(0)),
            (b"ask[a 1 from 1 from[]to 2]", None),
            (b"edit[]", Some(0)),
            (b"edit[split 1 remove[e 1]]", Some(0)),
            (b"edit[a 1 remove[e 1 e[]]split 1]", None),
            (b"edit[split[e 1 vertex 2]]", Some(0)),
            (b"edit[insert[edge 1 tail 1 tailafter 1 head 1]]", Some(0)),
            (b"edit[remove[id 1]]", Some(0)),
        ];
        for (i, (text, at)) in rows.iter().enumerate() {
            assert_eq!(rt; (i, bad_at(alloc, *text)), (i, *at));
        }
        Ok(())
    }

    #[test]
    fn reads_each_kind_of_record(rt: HostRuntime) -> Result<(), Fail> {
        let text =
            b"edit[insert[edge 9 tail 2 tailafter 3 head 4 headafter 5]]graph[]ask[to 3 from -2]edit[remove[e 1]]edit[split[e 0 vertex 7 edge 8]]";
        let items = [
            ScriptItem::Insert {
                edge: 9,
                tail: 2,
                tail_after: 3,
                head: 4,
                head_after: 5,
            },
            ScriptItem::Ask { from: -2, to: 3 },
            ScriptItem::Remove { edge: 1 },
            ScriptItem::Split {
                edge: 0,
                vertex: 7,
                new_edge: 8,
            },
        ];
        match read(rt.alloc(), text) {
            Ok(script) => assert_eq!(rt; script.items(), items.as_slice()),
            Err(_) => assert!(rt; false),
        }
        Ok(())
    }
}
