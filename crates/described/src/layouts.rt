// The packing as rules editors describe it: as a layout.
use crate::faults::*;
use components::{Component, ComponentType, Usb, Usbr};
use layout::{AWINT_FN_NAMES, AWINT_NAMES, Around, Claims, CodeGen, ConcatClaim, Room};
use lowering::{Counts, Handed, Lending, Open};
use std::alloc::{AllocError, Global};
use std::fmt;
use texts::Refusal;

/// The variables of the source, each of them whole: the hands, the deck and all the rest, from the least significant
/// bit on. The list that has a name is numbered by its place here.
const SOURCE: [&str; 6] = ["chapter", "flags", "deck", "ada", "ben", "cleo"];

/// A range of a variable: the list that has the variable's name, and where the range starts and ends.
#[derive(Clone, Copy)]
pub struct Part {
    list: usize,
    name: &'static str,
    start: i64,
    end: i64,
}

/// Where they go.
const SINK: Part = Part {
    list: 6,
    name: "code",
    start: 0,
    end: 155,
};

/// A range that ends before it starts.
const WRONG: Part = Part {
    start: 5,
    end: 3,
    ..SINK
};

impl fmt::Display for Part {
    fn fmt<W: fmt::Write>(&self, f: &mut fmt::Formatter<W>) -> fmt::Result {
        write!(f, "{}[{}..{}]", self.name, self.start, self.end)
    }
}

fn at(x: i64) -> Option<Usb<usize>> {
    Some(Usb { s: None, x })
}

impl From<Part> for Component<usize> {
    fn from(part: Part) -> Component<usize> {
        Component {
            c_type: ComponentType::Variable(part.list),
            range: Usbr {
                start: at(part.start),
                end: at(part.end),
            },
        }
    }
}

// The whole of the variable whose name this list has.
fn whole(list: usize) -> Component<usize> {
    Component {
        c_type: ComponentType::Variable(list),
        range: Usbr {
            start: at(0),
            end: None,
        },
    }
}

// Describes the packing: the names, the source, and the sink.
fn describe(open: &mut Open<'_, '_>) -> Result<(), Refusal> {
    for (list, name) in SOURCE.iter().enumerate() {
        open.text(list, name.as_bytes())?;
    }
    open.text(SINK.list, SINK.name.as_bytes())?;
    open.concatenation()?;
    for list in 0..SOURCE.len() {
        open.component(whole(list))?;
    }
    open.concatenation()?;
    open.component(Component::from(SINK))
}

// The components of a concatenation, from the least significant bit on.
fn listed(heap: Global, names: &[&str]) -> Result<String, AllocError> {
    let mut text = String::new(heap);
    for name in names {
        if !text.is_empty() {
            text.push_str(", ")?;
        }
        text.push_str(name)?;
    }
    Ok(text)
}

// Describes the packing, tries a wrong range besides, and seals it.
fn show_open(rt: &HostRuntime, mut open: Open<'_, '_>) -> Result<(), Fault> {
    describe(&mut open)?;
    println!(rt; "   source  {}", listed(rt.alloc(), &SOURCE)?)?;
    println!(rt; "   sink    {SINK}")?;
    if let Err(refusal) = open.component(Component::from(WRONG)) {
        let number = refusal.number();
        println!(rt; "   {WRONG} besides is refused by {number}, and nothing is added.")?;
    }
    let concatenations = [
        ConcatClaim {
            deterministic: true,
            static_width: None,
        },
        ConcatClaim {
            deterministic: true,
            static_width: Some(155),
        },
    ];
    let claims = Claims {
        returning: false,
        initial: None,
        nonzero: true,
        common: Some(155),
        alignment: 0,
        concatenations: &concatenations,
    };
    open.check_seal(&claims)?;
    let _sealed = open.seal(claims);
    println!(rt; "   Sealed: both are 155 bits wide.")?;
    Ok(())
}

/// Describes the packing as a layout, and prints it.
pub fn show(rt: &HostRuntime) -> Result<(), Fault> {
    let heap = rt.alloc();
    let mut lent = Lending::new(heap, &Counts::least())?;
    let room = Room::new(heap)?;
    let memory = lent.memory();
    let handed = Handed {
        names: AWINT_NAMES,
        fn_names: AWINT_FN_NAMES,
        code_gen: CodeGen {
            must_use: Around::NOTHING,
            static_construction_fn: Around::NOTHING,
            lit_construction_fn: Around::NOTHING,
            construction_fn: Around::NOTHING,
            const_wrapper: Around::NOTHING,
        },
    };
    lowering::check_start(&memory, &handed)?;
    show_open(rt, Open::start(room, memory, handed))
}
