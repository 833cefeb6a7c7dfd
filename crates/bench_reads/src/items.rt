// The line of what a reader by index finds: a node of a path, or an entry of a GPT.
use gpt::Entry;
use harness::print;
use harness::print::{RefusalWords, SpanWords};
use path::{NodeFields, NodeKind};
use refusal::Refusal;
use std::fmt;

#[derive(Clone, Copy)]
struct NodeWords(NodeFields);

impl fmt::Display for NodeWords {
    fn fmt<W: fmt::Write>(&self, f: &mut fmt::Formatter<W>) -> fmt::Result {
        let n = self.0;
        write!(f, "node at {} length {} {}", n.at, n.len, KindWords(n.kind))
    }
}

#[derive(Clone, Copy)]
struct KindWords(NodeKind);

impl fmt::Display for KindWords {
    fn fmt<W: fmt::Write>(&self, f: &mut fmt::Formatter<W>) -> fmt::Result {
        match self.0 {
            NodeKind::EndEntire(s) => write!(f, "end-entire body {}", SpanWords(s)),
            NodeKind::EndInstance(s) => write!(f, "end-instance body {}", SpanWords(s)),
            NodeKind::Pci(n) => write!(f, "pci function {} device {}", n.function, n.device),
            NodeKind::Memory(n) => {
                write!(f, "memory kind {} start {} end {}", n.kind, n.start, n.end)
            }
            NodeKind::Acpi(n) => write!(f, "acpi hid {} uid {}", n.hid, n.uid),
            NodeKind::HardDrive(n) => write!(
                f,
                "drive number {} start {} size {} signature {} format {} signature-type {}",
                n.number,
                n.start,
                n.size,
                SpanWords(n.signature),
                n.format,
                n.signature_type
            ),
            NodeKind::FilePath(s) => write!(f, "file name {}", SpanWords(s)),
            NodeKind::Unknown(n) => write!(
                f,
                "unknown type {} subtype {} body {}",
                n.kind,
                n.subtype,
                SpanWords(n.body)
            ),
        }
    }
}

#[derive(Clone, Copy)]
struct EntryWords(Entry);

impl fmt::Display for EntryWords {
    fn fmt<W: fmt::Write>(&self, f: &mut fmt::Formatter<W>) -> fmt::Result {
        let e = self.0;
        write!(
            f,
            "entry at {} type {} own {} first {} last {} attributes {} name {} rest {}",
            e.at,
            SpanWords(e.type_guid),
            SpanWords(e.own_guid),
            e.first_lba,
            e.last_lba,
            e.attributes,
            SpanWords(e.name),
            SpanWords(e.rest)
        )
    }
}

fn found_line<W: fmt::Display + Drop>(found: Result<Option<W>, Refusal>) {
    match found {
        Ok(Some(words)) => print::line(words),
        Ok(None) => print::line("nothing"),
        Err(r) => print::line(RefusalWords(r)),
    }
}

pub fn node_line(found: Result<Option<NodeFields>, Refusal>) {
    found_line(found.map(|node| node.map(NodeWords)));
}

pub fn entry_line(found: Result<Option<Entry>, Refusal>) {
    found_line(found.map(|entry| entry.map(EntryWords)));
}
