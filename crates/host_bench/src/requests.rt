// Requests for hosts and windows, and how lines spell them.
use lines::{FromLine, Line, Misread};

/// What a host is laid over.
#[derive(Drop)]
pub enum Stored {
    Words(Vec<u64>),
    Bytes(Vec<u8>),
}

/// The widths and numbers of a host, by name.
#[derive(Drop)]
pub struct Lists {
    pub widths: Vec<usize>,
    pub numbers: Vec<u32>,
}

/// What a host is made of.
#[derive(Drop)]
pub struct Recipe {
    pub lists: Lists,
    pub stored: Stored,
}

/// A window: the variable that it shows, and as what.
#[derive(Drop)]
pub struct Pane {
    pub name: usize,
    pub widths: Vec<usize>,
}

/// A call of a host.
#[derive(Clone, Copy)]
pub enum Call {
    Width {
        name: usize,
    },
    Number {
        name: usize,
    },
    Read {
        name: usize,
        offset: usize,
        count: usize,
    },
    Write {
        name: usize,
        offset: usize,
        count: usize,
        value: u64,
    },
}

/// What is asked of the host that stands.
#[derive(Drop)]
pub enum Question {
    Window(Pane),
    Call(Call),
    Storage,
}

/// What is asked: a host to stand, or something of the one that does.
#[derive(Drop)]
pub enum Request {
    Host(Recipe),
    Ask(Question),
}

fn read_lists(line: &mut Line<'_>) -> Result<Lists, Misread> {
    let widths = line.items()?;
    let numbers = line.items()?;
    Ok(Lists { widths, numbers })
}

// The kind stands before the lists: none is read for a kind that is not known.
fn read_recipe(line: &mut Line<'_>) -> Result<Recipe, Misread> {
    match line.word()? {
        b"words" => Ok(Recipe {
            lists: read_lists(line)?,
            stored: Stored::Words(line.items()?),
        }),
        b"bytes" => Ok(Recipe {
            lists: read_lists(line)?,
            stored: Stored::Bytes(line.bytes()?),
        }),
        _ => Err(Misread::Unreadable),
    }
}

fn read_pane(line: &mut Line<'_>) -> Result<Pane, Misread> {
    let name = line.number()?;
    let widths = line.items()?;
    Ok(Pane { name, widths })
}

fn read_part(line: &mut Line<'_>) -> Result<Call, Misread> {
    let name = line.number()?;
    let offset = line.number()?;
    let count = line.number()?;
    Ok(Call::Read {
        name,
        offset,
        count,
    })
}

fn read_writing(line: &mut Line<'_>) -> Result<Call, Misread> {
    let name = line.number()?;
    let offset = line.number()?;
    let count = line.number()?;
    let value = line.hex_word()?;
    Ok(Call::Write {
        name,
        offset,
        count,
        value,
    })
}

impl FromLine for Question {
    fn from_line(first: &[u8], line: &mut Line<'_>) -> Result<Question, Misread> {
        Ok(match first {
            b"window" => Question::Window(read_pane(line)?),
            b"width" => Question::Call(Call::Width {
                name: line.number()?,
            }),
            b"number" => Question::Call(Call::Number {
                name: line.number()?,
            }),
            b"read" => Question::Call(read_part(line)?),
            b"write" => Question::Call(read_writing(line)?),
            b"storage" => Question::Storage,
            _ => return Err(Misread::Unreadable),
        })
    }
}

impl FromLine for Request {
    fn from_line(first: &[u8], line: &mut Line<'_>) -> Result<Request, Misread> {
        Ok(match first {
            b"host" => Request::Host(read_recipe(line)?),
            _ => Request::Ask(Question::from_line(first, line)?),
        })
    }
}
