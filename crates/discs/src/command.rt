// What a line asks for: a name, of which the first four letters count, and its numbers.
use crate::forecast::Items;
use crate::line::Line;
use address::Span;
use maps::{Kind, Volume};
use model::{Cut, Effect, Record};

// How many elements of each part are lent.
#[derive(Clone, Copy)]
pub struct Lengths {
    pub disc: usize,
    pub marks: usize,
    pub table: usize,
    pub list: usize,
    pub block: usize,
    pub packet: usize,
}

// The calls.
#[derive(Clone, Copy)]
pub enum Call<'a> {
    // make, with the first so many of these spares
    Make { spares: [u32; 4], count: usize },
    // open
    Open,
    // read V
    Read(u32),
    // fullness
    Fullness,
    // forecast, with its items
    Forecast(&'a [u32]),
    // on a write-once disc: save V; free V; commit
    Save(u32),
    Free(u32),
    Commit,
    // on a rewritable one: change B, which saves a block; packet B, which saves one; spare B
    Change(u32),
    Packet(u32),
    Spare(u32),
}

#[derive(Clone, Copy)]
pub enum Command<'a> {
    // clear: the disc blank, and what is handed and lent as it was at first
    Clear,

    // What is handed: span S L; held N NWA ICB, or kept R SEQUENCE; cut WRITE EFFECT. lend, with a length for each of
    // disc, marks, table, list, block and packet.
    Span(Span),
    Held(Record),
    Cut(Cut),
    Lend(Lengths),

    // The disc: mark SECTOR MARK; put SECTOR MARK, which records the block; poke SECTOR AT NUMBER, of 4 bytes;
    // show SECTOR.
    Mark {
        sector: usize,
        mark: u8,
    },
    Put {
        sector: usize,
        mark: u8,
    },
    Poke {
        sector: usize,
        at: usize,
        number: u32,
    },
    Show {
        sector: usize,
    },

    // The table: entry NUMBER BLOCK; fill, with four numbers that stand by turns in all of it; table, which shows it;
    // numbers COUNT, which shows the first of them.
    Entry {
        number: usize,
        block: u32,
    },
    Fill([u32; 4]),
    Table,
    Numbers {
        count: usize,
    },

    // The map list: once; rewritable TABLES SIZE, then the tables' sectors; list AT BYTE.
    List(Volume),
    ListByte {
        at: usize,
        byte: u8,
    },

    // blocks BYTE: a packet whose first block has this byte in every place, the next one the next byte, and so on.
    Blocks(u8),

    // The block: bytes BYTE; set8, set16 and set32 AT NUMBER; regid AT; tagged BLOCK COVERED; sum.
    Bytes(u8),
    Set8 {
        at: usize,
        number: u8,
    },
    Set16 {
        at: usize,
        number: u16,
    },
    Set32 {
        at: usize,
        number: u32,
    },
    Regid {
        at: usize,
    },
    Tagged {
        block: u32,
        covered: u32,
    },
    Sum,

    Call(Call<'a>),
}

// How a write is cut: unreadable or whole by the first letter, else the sector is as it was.
fn effect(initial: Option<u8>) -> Effect {
    match initial {
        Some(b'u') => Effect::Unreadable,
        Some(b'w') => Effect::Whole,
        _ => Effect::Old,
    }
}

// A volume whose list is written; the span does not stand there.
fn volume(kind: Kind, tables: [u32; 4]) -> Volume {
    Volume {
        span: Span {
            start: 0,
            length: 0,
        },
        kind,
        tables,
    }
}

// The volume of a write-once disc.
pub fn write_once() -> Volume {
    volume(Kind::WriteOnce { partition: 7 }, [0; 4])
}

impl<'a> Command<'a> {
    // None where the name is none of these. The items of a forecast are written to the places.
    pub fn read(line: Line<'_>, places: &'a mut [u32]) -> Option<Command<'a>> {
        let command = match &line.name() {
            b"clea" => Command::Clear,
            b"span" => Command::Span(Span {
                start: line.number(1),
                length: line.number(2),
            }),
            b"held" => Command::Held(Record::WriteOnce {
                entries: line.number(1),
                next: line.number(2),
                last: line.number(3),
            }),
            b"kept" => Command::Held(Record::Rewritable {
                entries: line.number(1),
                sequence: line.number(2),
            }),
            b"cut " => Command::Cut(Cut {
                at: line.number(1),
                effect: effect(line.initial(2)),
            }),
            b"lend" => Command::Lend(Lengths {
                disc: line.size(1),
                marks: line.size(2),
                table: line.size(3),
                list: line.size(4),
                block: line.size(5),
                packet: line.size(6),
            }),
            b"mark" => Command::Mark {
                sector: line.size(1),
                mark: line.byte(2),
            },
            b"put " => Command::Put {
                sector: line.size(1),
                mark: line.byte(2),
            },
            b"poke" => Command::Poke {
                sector: line.size(1),
                at: line.size(2),
                number: line.number(3),
            },
            b"show" => Command::Show {
                sector: line.size(1),
            },
            b"entr" => Command::Entry {
                number: line.size(1),
                block: line.number(2),
            },
            b"fill" => Command::Fill(line.numbers()),
            b"tabl" => Command::Table,
            b"numb" => Command::Numbers {
                count: line.size(1),
            },
            b"once" => Command::List(write_once()),
            b"rewr" => Command::List(volume(
                Kind::Rewritable {
                    partition: 7,
                    tables: line.byte(1),
                    size: line.number(2),
                },
                [
                    line.number(3),
                    line.number(4),
                    line.number(5),
                    line.number(6),
                ],
            )),
            b"list" => Command::ListByte {
                at: line.size(1),
                byte: line.byte(2),
            },
            b"bloc" => Command::Blocks(line.byte(1)),
            b"byte" => Command::Bytes(line.byte(1)),
            b"set8" => Command::Set8 {
                at: line.size(1),
                number: line.byte(2),
            },
            b"set1" => Command::Set16 {
                at: line.size(1),
                number: (line.number(2) % 65536) as u16,
            },
            b"set3" => Command::Set32 {
                at: line.size(1),
                number: line.number(2),
            },
            b"regi" => Command::Regid { at: line.size(1) },
            b"tagg" => Command::Tagged {
                block: line.number(1),
                covered: line.number(2),
            },
            b"sum " => Command::Sum,
            b"make" => Command::Call(Call::Make {
                spares: line.numbers(),
                count: line.count(),
            }),
            b"open" => Command::Call(Call::Open),
            b"read" => Command::Call(Call::Read(line.number(1))),
            b"full" => Command::Call(Call::Fullness),
            b"fore" => {
                let items = Items {
                    first: line.number(1),
                    step: line.number(2),
                    count: line.number(3),
                    saves: line.number(4),
                };
                Command::Call(Call::Forecast(items.list(places)?))
            }
            b"save" => Command::Call(Call::Save(line.number(1))),
            b"free" => Command::Call(Call::Free(line.number(1))),
            b"comm" => Command::Call(Call::Commit),
            b"chan" => Command::Call(Call::Change(line.number(1))),
            b"pack" => Command::Call(Call::Packet(line.number(1))),
            b"spar" => Command::Call(Call::Spare(line.number(1))),
            _ => return None,
        };
        Some(command)
    }
}
