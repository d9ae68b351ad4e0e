//! Large files of the trials: paths, parallel edges, cycles.

use itoa::Buffer;
use st_ids::Text;
use std::alloc::Global;
use std::test::Fail;

// The vertices 1 to n.
fn append_nodes(file: &mut Text, n: u64) -> Result<(), Fail> {
    let mut buffer = Buffer::new();
    for v in 0..n {
        file.append(b"node [ id ")?;
        file.append(buffer.format(v.saturating_add(1)).as_bytes())?;
        file.append(b" ] ")?;
    }
    Ok(())
}

// The edges of a path from the vertex 1 to the vertex n + 1.
fn append_path(file: &mut Text, n: u64) -> Result<(), Fail> {
    let mut buffer = Buffer::new();
    for v in 0..n {
        file.append(b"edge [ source ")?;
        file.append(buffer.format(v.saturating_add(1)).as_bytes())?;
        file.append(b" target ")?;
        file.append(buffer.format(v.saturating_add(2)).as_bytes())?;
        file.append(b" ] ")?;
    }
    Ok(())
}

/// A path of so many vertices, with so many more edges from the vertex 1 to the vertex 2.
pub fn path(alloc: Global, vertices: u64, more: u64) -> Result<Text, Fail> {
    let mut file = Text::new(alloc);
    file.append(b"graph [ ")?;
    append_nodes(&mut file, vertices)?;
    append_path(&mut file, vertices.saturating_sub(1))?;
    for _ in 0..more {
        file.append(b"edge [ source 1 target 2 ] ")?;
    }
    file.append(b"]\n")?;
    Ok(file)
}

/// A cycle of 20,000 edges.
pub fn ring(alloc: Global) -> Result<Text, Fail> {
    let mut file = Text::new(alloc);
    file.append(b"graph [ ")?;
    append_nodes(&mut file, 20_000)?;
    append_path(&mut file, 19_999)?;
    file.append(b"edge [ source 20000 target 1 ] ]\n")?;
    Ok(file)
}
