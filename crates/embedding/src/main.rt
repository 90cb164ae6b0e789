//! A short program that uses the crates as a library: a register, and the encoder alone.
#![tactic(auto)]

use anyhow::Context;
use olr_binary::to_text;
use olr_commands::{Command, Entry, Reply};
use olr_coords::Coord;
use olr_map::{Edit, Line, LineId, MapRead, NodeId, NodeLines, RoadMap};
use olr_refs::{Answer, Path, refer};
use olr_register::Register;
use olr_route::Work;
use std::alloc::Global;
use std::io;

fn node_id(number: u32) -> anyhow::Result<NodeId> {
    NodeId::new(number).context("numbers begin at 1")
}

fn line_id(number: u32) -> anyhow::Result<LineId> {
    LineId::new(number).context("numbers begin at 1")
}

/// A new node; longitude and latitude are in steps of 10^-7 degrees.
fn node(number: u32, lon: i32, lat: i32) -> anyhow::Result<Edit> {
    let place = Coord::new(i64::from(lon) * 32_768, i64::from(lat) * 32_768);
    let place = place.context("a place on the earth")?;
    Ok(Edit::AddNode(node_id(number)?, place))
}

/// A new straight line of 100 m between two nodes.
fn line(alloc: Global, number: u32, from: u32, to: u32) -> anyhow::Result<Edit> {
    let (number, from, to) = (line_id(number)?, node_id(from)?, node_id(to)?);
    let line = Line {
        from,
        to,
        frc: 4,
        fow: 3,
        len: 1000,
        shape: Vec::new(alloc),
    };
    Ok(Edit::AddLine(number, line))
}

/// Appends an edit to a list.
fn add(edits: &mut Vec<Edit>, edit: anyhow::Result<Edit>) -> anyhow::Result<()> {
    edits.push(edit?)?;
    Ok(())
}

/// The nodes and lines of a street.
fn street(alloc: Global) -> anyhow::Result<Vec<Edit>> {
    let mut edits = Vec::new(alloc);
    for (number, lon) in [(1, 0), (2, 10_000), (3, 20_000)] {
        add(&mut edits, node(number, lon, 0))?;
    }
    for (number, from, to) in [(10, 1, 2), (11, 2, 1), (20, 2, 3), (21, 3, 2)] {
        add(&mut edits, line(alloc, number, from, to))?;
    }
    Ok(edits)
}

/// Prints a path's name with its string, or with the reason why it has none.
fn print_entry(rt: &impl Print, entry: &Entry) -> io::Result<()> {
    match &entry.published {
        Ok(text) => println!(rt; "{} {text}", entry.name),
        Err(refusal) => println!(rt; "{} {refusal:?}", entry.name),
    }
}

/// Prints the paths that a reply names.
fn print_all(rt: &impl Print, reply: &Reply) -> io::Result<()> {
    if let Reply::Paths(entries) = reply {
        for entry in entries {
            print_entry(rt, entry)?;
        }
    }
    Ok(())
}

/// Applies a command to a register, and prints the paths whose string it changed.
fn apply(rt: &impl Print, register: &mut Register, command: Command) -> anyhow::Result<()> {
    let reply = register.apply(command)?;
    print_all(rt, &reply)?;
    Ok(())
}

/// A path along line 20 of the street.
fn path(alloc: Global) -> anyhow::Result<Command> {
    let line = line_id(20)?;
    let name = String::from_str(alloc, "street")?;
    let lines = Vec::from_array(alloc, [line])?;
    Ok(Command::AddPath(name, lines, 0, 0))
}

/// The command that asks for the fields of the path's string.
fn question(alloc: Global, register: &Register) -> anyhow::Result<Command> {
    let text = register.text("street").context("a string")?;
    let text = Vec::from_slice(alloc, text.as_bytes())?;
    Ok(Command::Explain(text))
}

/// The street with its path in a register, and a side road, which changes the string.
fn fill(rt: &impl Print, alloc: Global, register: &mut Register) -> anyhow::Result<()> {
    for edit in street(alloc)? {
        apply(rt, register, Command::Edit(edit))?;
    }
    apply(rt, register, path(alloc)?)?;
    apply(rt, register, Command::Edit(node(4, 10_000, 10_000)?))?;
    apply(rt, register, Command::Edit(line(alloc, 40, 2, 4)?))
}

/// Prints the fields of the string.
fn explain(rt: &impl Print, alloc: Global, register: &mut Register) -> anyhow::Result<()> {
    let question = question(alloc, register)?;
    if let Reply::Fields(reference) = register.apply(question)? {
        println!(rt; "{:?}", reference.first)?;
    }
    Ok(())
}

/// Makes an edit that is far from the path.
fn edit_far(rt: &impl Print, register: &mut Register) -> anyhow::Result<()> {
    let before = register.work().encodings;
    apply(
        rt,
        register,
        Command::Edit(node(5, 70_000_000, 500_000_000)?),
    )?;
    let after = register.work().encodings;
    println!(rt; "encodings {before}, and {after} after a far edit")?;
    Ok(())
}

/// Uses a register.
fn keep(rt: &impl Print, alloc: Global) -> anyhow::Result<()> {
    let mut register = Register::new(alloc);
    keep_in(rt, alloc, &mut register)
}

/// What is done with the register.
fn keep_in(rt: &impl Print, alloc: Global, register: &mut Register) -> anyhow::Result<()> {
    fill(rt, alloc, register)?;
    explain(rt, alloc, register)?;
    edit_far(rt, register)
}

/// The map of the street, without a register.
fn street_map(alloc: Global) -> anyhow::Result<RoadMap> {
    let mut map = RoadMap::new(alloc);
    for edit in street(alloc)? {
        let undo = map.apply(edit)?;
        map.keep(undo);
    }
    Ok(map)
}

/// A map type of an application: another map, and the year in which it was surveyed. Each call is passed on.
#[derive(Drop)]
struct Survey<M> {
    map: M,
    year: u16,
}

impl<M: MapRead> MapRead for Survey<M> {
    ghost map = { λ s. M.map s.map };

    ghost node_slot = { λ s. M.node_slot s.map };

    ghost count = { λ s. M.count s.map };

    fn node(&self, id: NodeId) -> Option<Coord> {
        self.map.node(id)
    }

    fn line(&self, id: LineId) -> Option<&Line> {
        self.map.line(id)
    }

    fn out_lines(&self, id: NodeId) -> &[LineId] {
        self.map.out_lines(id)
    }

    fn in_lines(&self, id: NodeId) -> &[LineId] {
        self.map.in_lines(id)
    }

    fn slot_count(&self) -> usize {
        self.map.slot_count()
    }

    fn slot_of(&self, id: NodeId) -> Option<u32> {
        self.map.slot_of(id)
    }

    fn node_at(&self, slot: u32) -> Option<NodeId> {
        self.map.node_at(slot)
    }

    fn out_lines_at(&self, slot: u32) -> NodeLines<'_> {
        self.map.out_lines_at(slot)
    }

    fn in_lines_at(&self, slot: u32) -> NodeLines<'_> {
        self.map.in_lines_at(slot)
    }

    ghost sound = { λ s. M.sound s.map };

    ghost placed = { λ s. M.placed s.map };
}

/// The string of a line on any map, and the number of nodes in its footprint.
fn encode<M: MapRead>(rt: &impl Print, alloc: Global, map: &M, line: LineId) -> anyhow::Result<()> {
    let path = Path::new(alloc, Vec::from_array(alloc, [line])?, 0, 0)?;
    let (answer, footprint) = refer(alloc, map, &path, &mut Work::default())?;
    if let Answer::Points(reference) = answer {
        let text = to_text(alloc, &reference)?;
        println!(rt; "{text} rests on {} nodes", footprint.as_slice().len())?;
    }
    Ok(())
}

/// Uses the encoder alone, on the application's map type.
fn encode_survey(rt: &impl Print, alloc: Global) -> anyhow::Result<()> {
    let line = line_id(20)?;
    let map = street_map(alloc)?;
    let survey = Survey { map, year: 2026 };
    println!(rt; "surveyed in {}", survey.year)?;
    encode(rt, alloc, &survey, line)
}

fn main(rt: HostRuntime) -> anyhow::Result<()> {
    keep(&rt, rt.alloc())?;
    encode_survey(&rt, rt.alloc())
}
