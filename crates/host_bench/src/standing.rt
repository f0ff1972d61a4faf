// A host that stands on the bench, and what it answers.
ghost use Rattle.host.specs.Parts.{Same};
ghost use Rattle.host.specs.Refusals.{refusal};
ghost use Rattle.std.specs.Prelude.{◌≡◌, is_ok, IfOk};
ghost use Rattle.host_bench.specs.Asked.{Left, Told, call_refusal};

use crate::answers::{Answer, Reply};
use crate::requests::{Call, Lists, Pane, Question, Recipe, Stored};
use host::{Host, Laid, PackedBytes, Refusal, Storage, Window, Words};
use std::alloc::{AllocError, AllocFailed, Global};

// At most so many windows lie on top of each other.
const PANES: usize = 2;

/// A host and its windows, the lowest first. They are made anew for each call, over the storage that lasts.
#[derive(Drop)]
pub struct Standing {
    heap: Global,
    recipe: Recipe,
    panes: Vec<Pane>,
}

// Makes one call of a host.
fn ask<H: Host>(host: &mut H, call: Call) -> Result<Reply, Refusal>
    ensures refused { refusal result ≡ call_refusal (H.Host.widths host.old) (H.Host.numbers host.old) call }
    ensures answer { IfOk result (Told (H.Host.widths host.old) (H.Host.numbers host.old) (H.Host.bits host.old) call) }
    ensures bits { Left call (is_ok result) (H.Host.bits host.old) (H.Host.bits host.new) }
    ensures widths { Same (H.Host.widths host.old) (H.Host.widths host.new) }
    ensures numbers { Same (H.Host.numbers host.old) (H.Host.numbers host.new) }
{
    Ok(match call {
        Call::Width { name } => Reply::Width(host.width(name)?),
        Call::Number { name } => Reply::Number(host.number(name)?),
        Call::Read {
            name,
            offset,
            count,
        } => Reply::Read(host.read(name, offset, count)?),
        Call::Write {
            name,
            offset,
            count,
            value,
        } => {
            host.write(name, offset, count, value)?;
            Reply::Done
        }
    })
}

// Makes one call of a host through its windows.
fn ask_through<H: Host + Drop>(mut host: H, panes: &[Pane], call: Call) -> Result<Reply, Refusal> {
    match panes {
        [] => ask(&mut host, call),
        [low] => ask(&mut Window::new(host, low.name, &low.widths), call),
        [low, high, ..] => {
            let below = Window::new(host, low.name, &low.widths);
            ask(&mut Window::new(below, high.name, &high.widths), call)
        }
    }
}

// Makes one call of a host that is laid over a storage.
fn ask_over<S: Storage + Drop>(
    heap: Global,
    store: S,
    lists: &Lists,
    panes: &[Pane],
    call: Call,
) -> Result<Result<Reply, Refusal>, AllocError> {
    let host = Laid::new(heap, store, &lists.widths, &lists.numbers)?;
    Ok(ask_through(host, panes, call))
}

impl Standing {
    pub fn new(heap: Global, recipe: Recipe) -> Standing {
        Standing {
            heap,
            recipe,
            panes: Vec::new(heap),
        }
    }

    // Lays a window on top.
    fn lay(&mut self, pane: Pane) -> Result<Answer<'_>, AllocFailed<Pane>> {
        if self.panes.len() >= PANES {
            return Ok(Answer::OutOfTurn);
        }
        self.panes.push(pane)?;
        Ok(Answer::Done)
    }

    // Makes one call of the host, laid over its storage.
    fn call(&mut self, call: Call) -> Result<Result<Reply, Refusal>, AllocError> {
        let Recipe { lists, stored } = &mut self.recipe;
        match stored {
            Stored::Words(words) => {
                ask_over(self.heap, Words::new(words), lists, &self.panes, call)
            }
            Stored::Bytes(bytes) => {
                ask_over(self.heap, PackedBytes::new(bytes), lists, &self.panes, call)
            }
        }
    }

    /// Answers a question.
    pub fn answer(&mut self, question: Question) -> Result<Answer<'_>, AllocError> {
        match question {
            Question::Window(pane) => Ok(self.lay(pane)?),
            Question::Call(call) => Ok(Answer::Called(self.call(call)?)),
            Question::Storage => Ok(Answer::Storage(&self.recipe.stored)),
        }
    }
}
