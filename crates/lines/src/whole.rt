// A line as what it spells, whole.
use crate::faults::Misread;
use crate::line::Line;
use std::alloc::Global;

/// What a line may spell.
pub trait FromLine {
    /// What a line spells that begins with this word.
    fn from_line(first: &[u8], line: &mut Line<'_>) -> Result<Self, Misread>
    where
        Self: Sized;
}

/// What a line spells, or none where it is blank or a comment.
pub fn parse<C: FromLine + Drop>(heap: Global, bytes: &[u8]) -> Result<Option<C>, Misread> {
    let mut line = Line::new(heap, bytes);
    let Some(first) = line.next_word() else {
        return Ok(None);
    };
    if let [b'#', ..] = first {
        return Ok(None);
    }
    let command = C::from_line(first, &mut line)?;
    line.end()?;
    Ok(Some(command))
}

#[cfg(test)]
mod tests {
    use super::*;
    use std::test::Fail;

    #[derive(Drop)]
    struct Add {
        items: Vec<usize>,
    }

    impl FromLine for Add {
        fn from_line(first: &[u8], line: &mut Line<'_>) -> Result<Add, Misread> {
            match first {
                b"add" => Ok(Add {
                    items: line.items()?,
                }),
                _ => Err(Misread::Unreadable),
            }
        }
    }

    #[test]
    fn a_line_is_a_command_or_none(rt: HostRuntime) -> Result<(), Fail> {
        let heap = rt.alloc();
        let add = parse::<Add>(heap, b"add 1,2");
        assert!(rt; add.is_ok_and(|add| add.is_some_and(|add| add.items.len() == 2)));
        assert!(rt; parse::<Add>(heap, b" \t\r").is_ok_and(|add| add.is_none()));
        assert!(rt; parse::<Add>(heap, b"# add 1").is_ok_and(|add| add.is_none()));
        assert!(rt; parse::<Add>(heap, b"add 1 2").is_err());
        assert!(rt; parse::<Add>(heap, b"sub 1").is_err());
        Ok(())
    }
}
