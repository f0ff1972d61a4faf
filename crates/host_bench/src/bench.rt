// The bench, and what it is asked.
ghost use Rattle.host_bench.specs.declared.answers.Answer.TheVariants.{Done, OutOfTurn};
ghost use Rattle.host_bench.specs.declared.requests.Question.{Question as AQuestion};
ghost use Rattle.host_bench.specs.declared.requests.Recipe.{Recipe as ARecipe};
ghost use Rattle.host_bench.specs.declared.requests.Request.TheVariants.{Ask, Host};
ghost use Rattle.std.specs.Prelude.{◌≡◌, None, Ok};

use crate::answers::Answer;
use crate::requests::Request;
use crate::standing::Standing;
use std::alloc::{AllocError, Global};

/// The place for a host, with the memory for what stands on it.
#[derive(Drop)]
pub struct Bench {
    heap: Global,
    stands: Option<Standing>,
}

impl Bench {
    pub fn new(heap: Global) -> Bench
        ensures empty { result.stands ≡ None }
    {
        Bench { heap, stands: None }
    }

    /// Serves a request: a host that is handed in stands from then on, and what is asked goes to the one that stands.
    pub fn serve(&mut self, request: Request) -> Result<Answer<'_>, AllocError>
        ensures done { (r : ARecipe) → request ≡ Host r → result ≡ Ok Done }
        ensures out_of_turn { (q : AQuestion) → self.old.stands ≡ None → request ≡ Ask q → result ≡ Ok OutOfTurn }
    {
        match request {
            Request::Host(recipe) => {
                self.stands = Some(Standing::new(self.heap, recipe));
                Ok(Answer::Done)
            }
            Request::Ask(question) => match &mut self.stands {
                Some(standing) => standing.answer(question),
                None => Ok(Answer::OutOfTurn),
            },
        }
    }
}

#[cfg(test)]
mod tests {
    use super::*;
    use std::fmt::Write;
    use std::test::Fail;

    #[test]
    fn a_host_is_made_and_asked(rt: HostRuntime) -> Result<(), Fail> {
        let heap = rt.alloc();
        let mut bench = Bench::new(heap);
        let mut said = String::new(heap);
        let script: [&[u8]; 5] = [
            b"width 0",
            b"host words 3,5 7 0xab",
            b"window 1 2,3",
            b"read 1 0 3",
            b"storage",
        ];
        for line in script {
            if let Ok(Some(request)) = lines::parse::<Request>(heap, line) {
                let answer = bench.serve(request)?;
                writeln!(said, "{answer}")?;
            }
        }
        assert_eq!(rt;
            said.as_str(),
            "out of turn\nok\nok\nread 0x5\nstorage 0xab\n"
        );
        Ok(())
    }
}
