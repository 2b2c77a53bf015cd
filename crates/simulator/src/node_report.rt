//! Printing what the nodes hold.
use crate::error::SimulatorError;
use crate::image::{DeviceImage, read_device};
use crate::node::name_of;
use crate::options::Options;
use crate::quoted::Quoted;
use kv_types::RecordId;
use machine::Node;
use model::{ImageContents, Record, Role};
use pmem::SimPmem;
use std::alloc::{AllocError, Global};
use std::io;
use std::io::Write;

/// Prints the position of each node, then the records of each and then the words of each, if they are asked for.
pub fn write_nodes<W: Write>(
    alloc: Global,
    out: &mut W,
    options: &Options,
    primary: &SimPmem,
    standby: &SimPmem,
) -> Result<(), SimulatorError> {
    let nodes = read_nodes(alloc, primary, standby)?;
    write_positions(out, &nodes)?;
    if options.map {
        write_maps(out, &nodes)?;
    }
    if options.images {
        write_images(out, &nodes)?;
    }
    Ok(())
}

/// A node's name, and what its device holds.
type NodeImage = (&'static str, DeviceImage);

fn read_nodes(
    alloc: Global,
    primary: &SimPmem,
    standby: &SimPmem,
) -> Result<Vec<NodeImage>, AllocError> {
    let first = (name_of(Node::Primary), read_device(alloc, primary)?);
    let second = (name_of(Node::Standby), read_device(alloc, standby)?);
    Ok(vec![in alloc; first, second]?)
}

fn write_positions<W: Write>(out: &mut W, nodes: &[NodeImage]) -> io::Result<()> {
    for (node, image) in nodes {
        match &image.contents {
            Some(contents) => write_position(out, node, &contents.record)?,
            None => writeln!(out, "{node}: no whole image")?,
        }
    }
    Ok(())
}

fn write_maps<W: Write>(out: &mut W, nodes: &[NodeImage]) -> io::Result<()> {
    for (node, image) in nodes {
        if let Some(contents) = &image.contents {
            write_records(out, node, contents)?;
        }
    }
    Ok(())
}

fn write_images<W: Write>(out: &mut W, nodes: &[NodeImage]) -> io::Result<()> {
    for (node, image) in nodes {
        write_words(out, node, image.words.as_slice())?;
    }
    Ok(())
}

/// The current record of a node's image.
pub fn write_position<W: Write>(out: &mut W, node: &str, record: &Record) -> io::Result<()> {
    let position = record.position;
    let number = record.number;
    let cp = record.cp;
    let cd = record.cd;
    let epoch = record.epoch;
    let role = match record.role {
        Role::Primary => "primary",
        Role::Standby => "standby",
        Role::Newcomer => "newcomer",
    };
    let gaps = record.gaps.len();
    writeln!(
        out,
        "{node}: position {position}, record {number}, cp {cp}, cd {cd}, epoch {epoch}, role {role}, gaps {gaps}"
    )
}

/// The records of a node's image, in their order.
pub fn write_records<W: Write>(
    out: &mut W,
    node: &str,
    contents: &ImageContents,
) -> io::Result<()> {
    for (id, value) in contents.keyspace.records() {
        let key = Quoted(id.key().as_slice());
        let value = Quoted(value.as_slice());
        match id {
            RecordId::Str(_) => writeln!(out, "{node} record: {key} = {value}")?,
            RecordId::Field(_, field) => {
                let field = Quoted(field.as_slice());
                writeln!(out, "{node} record: {key} {field} = {value}")?;
            }
        }
    }
    Ok(())
}

/// The words that are not zero.
fn write_words<W: Write>(out: &mut W, node: &str, words: &[u64]) -> io::Result<()> {
    for (number, word) in words.iter().enumerate() {
        if *word != 0 {
            writeln!(out, "{node} word {number}: {word}")?;
        }
    }
    Ok(())
}
