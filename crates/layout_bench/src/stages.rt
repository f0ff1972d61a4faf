// The stages of a layout, one loop for each.
use crate::answers::Answer;
use crate::serving::{Asked, Desk, say, say_out_of_turn};
use crate::settings::Settings;
use layout::Room;
use lowering::{Lending, Open, Sealed};
use script::{Build, Sealing};
use std::alloc::{AllocError, Global};
use std::io;
use texts::Refusal;

// A `start` that was read. Where a layout stands, it is one that is accepted.
#[derive(Clone, Copy)]
struct Start;

// What ends the building of an open layout.
#[derive(Drop)]
enum Closed {
    Start(Start),
    Seal(Sealing),
}

// Whether a start with these settings is accepted.
fn would_start(heap: Global, settings: &Settings) -> Result<Result<(), Refusal>, AllocError> {
    let mut lent = Lending::new(heap, &settings.counts)?;
    let handed = settings.texts.handed();
    Ok(lowering::check_start(&lent.memory(), &handed))
}

// The loops below have a count, since the language wants one where a loop ends with the input: each turn but the last reads a line.

// Serves lines while there is no layout, up to a `start`.
fn serve_none(rt: &HostRuntime, desk: &mut Desk) -> io::Result<Option<Start>> {
    for _ in 0..u64::MAX {
        match desk.next(rt)? {
            None => break,
            Some(Asked::Start) => return Ok(Some(Start)),
            Some(Asked::Build(_)) => say_out_of_turn(rt)?,
        }
    }
    Ok(None)
}

// Serves lines while a sealed layout stands, up to a `start` that is accepted.
fn serve_sealed(
    rt: &HostRuntime,
    desk: &mut Desk,
    _sealed: &Sealed<'_, '_, '_>,
) -> io::Result<Option<Start>> {
    for _ in 0..u64::MAX {
        match desk.next(rt)? {
            None => break,
            Some(Asked::Start) => match would_start(rt.alloc(), &desk.table.settings)? {
                Ok(()) => return Ok(Some(Start)),
                refused => say(rt, Answer::Layout(refused))?,
            },
            Some(Asked::Build(_)) => say_out_of_turn(rt)?,
        }
    }
    Ok(None)
}

// Serves lines while an open layout stands, up to a `seal` that is read or a `start` that is accepted.
fn serve_open(
    rt: &HostRuntime,
    desk: &mut Desk,
    open: &mut Open<'_, '_>,
) -> io::Result<Option<Closed>> {
    for _ in 0..u64::MAX {
        let result = match desk.next(rt)? {
            None => break,
            Some(Asked::Start) => match would_start(rt.alloc(), &desk.table.settings)? {
                Ok(()) => return Ok(Some(Closed::Start(Start))),
                refused => refused,
            },
            Some(Asked::Build(build)) => match build {
                Build::Text { list, bytes } => open.text(list, &bytes),
                Build::Group {
                    list,
                    delimiter,
                    child,
                } => open.group(list, delimiter, child),
                Build::Concatenation => open.concatenation(),
                Build::Component(component) => open.component(component),
                Build::Seal(sealing) => return Ok(Some(Closed::Seal(sealing))),
            },
        };
        say(rt, Answer::Layout(result))?;
    }
    Ok(None)
}

// Serves an open layout, and then the sealed one that it becomes.
fn serve_layout(
    rt: &HostRuntime,
    desk: &mut Desk,
    mut open: Open<'_, '_>,
) -> io::Result<Option<Start>> {
    for _ in 0..u64::MAX {
        match serve_open(rt, desk, &mut open)? {
            None => return Ok(None),
            Some(Closed::Start(start)) => return Ok(Some(start)),
            Some(Closed::Seal(sealing)) => {
                let claims = sealing.claims();
                match open.check_seal(&claims) {
                    Ok(()) => {
                        let sealed = open.seal(claims);
                        say(rt, Answer::Layout(Ok(())))?;
                        return serve_sealed(rt, desk, &sealed);
                    }
                    refused => say(rt, Answer::Layout(refused))?,
                }
            }
        }
    }
    Ok(None)
}

// Begins a layout, if the start is accepted, and serves it. The texts are those of now, whatever is set later.
fn serve_start(rt: &HostRuntime, desk: &mut Desk) -> io::Result<Option<Start>> {
    let texts = desk.table.settings.texts;
    let mut lent = Lending::new(rt.alloc(), &desk.table.settings.counts)?;
    let room = Room::new(rt.alloc())?;
    let memory = lent.memory();
    let handed = texts.handed();
    match lowering::check_start(&memory, &handed) {
        Ok(()) => {
            let open = Open::start(room, memory, handed);
            say(rt, Answer::Layout(Ok(())))?;
            serve_layout(rt, desk, open)
        }
        refused => {
            say(rt, Answer::Layout(refused))?;
            serve_none(rt, desk)
        }
    }
}

pub fn run(rt: &HostRuntime) -> io::Result<()> {
    let mut desk = Desk::new(rt)?;
    let mut start = serve_none(rt, &mut desk)?;
    for _ in 0..u64::MAX {
        let Some(Start) = start else {
            break;
        };
        start = serve_start(rt, &mut desk)?;
    }
    Ok(())
}
