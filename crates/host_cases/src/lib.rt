//! Worked examples of hosts and windows, worked out by hand from the rules: of the definitions, as contracts, and of
//! the calls, as tests.
#![tactic(auto)]

mod examples;

pub use examples::{laid_in_a_word, parts_of_seventy, places, shown, widest};

#[cfg(test)]
mod tests {
    use host::{Host, Laid, PackedBytes, Refusal, Window, Words};
    use std::test::Fail;

    // The number by which a call was refused, if it was.
    fn refused<T: Drop>(answer: Result<T, Refusal>) -> Option<u8> {
        answer.err().map(|refusal| refusal.number())
    }

    // Ten bits behind sixty: four end the first word, six begin the second.
    #[test]
    fn crosses_words(rt: HostRuntime) -> Result<(), Fail> {
        let mut words = [0u64, 0];
        {
            let mut host = Laid::new(rt.alloc(), Words::new(&mut words), &[60, 10], &[])?;
            assert_eq!(rt; refused(host.write(1, 0, 10, 0xffff)), None);
            assert_eq!(rt; host.read(1, 0, 10), Ok(0x3ff));
            assert_eq!(rt; host.read(1, 3, 4), Ok(0xf));
            assert_eq!(rt; host.read(0, 0, 60), Ok(0));
        }
        assert_eq!(rt; words, [0xf000_0000_0000_0000, 0x3f]);
        Ok(())
    }

    // Bits 5 to 9 of the row: 0, 1, 1 end the first byte, 0, 1 begin the second from its highest bit.
    #[test]
    fn crosses_bytes(rt: HostRuntime) -> Result<(), Fail> {
        let mut bytes = [0u8, 0];
        {
            let mut host = Laid::new(rt.alloc(), PackedBytes::new(&mut bytes), &[3, 10], &[])?;
            assert_eq!(rt; refused(host.write(1, 2, 5, 0b10110)), None);
            assert_eq!(rt; host.read(1, 2, 5), Ok(0b10110));
            assert_eq!(rt; host.read(1, 0, 10), Ok(0b1011000));
        }
        assert_eq!(rt; bytes, [0x03, 0x40]);
        Ok(())
    }

    // 64 bits from the middle of a byte on lie in nine bytes.
    #[test]
    fn nine_bytes(rt: HostRuntime) -> Result<(), Fail> {
        let mut bytes = [0u8; 9];
        {
            let mut host = Laid::new(rt.alloc(), PackedBytes::new(&mut bytes), &[4, 64], &[])?;
            assert_eq!(rt; refused(host.write(1, 0, 64, 0x8000_0000_0000_0001)), None);
            assert_eq!(rt; host.read(1, 0, 64), Ok(0x8000_0000_0000_0001));
        }
        assert_eq!(rt; bytes, [0x08, 0, 0, 0, 0, 0, 0, 0, 0x10]);
        Ok(())
    }

    // A part has 1 to 64 bits and ends inside; a lacking name comes before a wrong part.
    #[test]
    fn parts(rt: HostRuntime) -> Result<(), Fail> {
        let mut words = [u64::MAX, u64::MAX];
        let host = Laid::new(
            rt.alloc(),
            Words::new(&mut words),
            &[70],
            &[7, 4_294_967_295],
        )?;
        assert_eq!(rt; refused(host.read(0, 0, 0)), Some(24));
        assert_eq!(rt; host.read(0, 69, 1), Ok(1));
        assert_eq!(rt; refused(host.read(0, 70, 1)), Some(24));
        assert_eq!(rt; host.read(0, 6, 64), Ok(u64::MAX));
        assert_eq!(rt; refused(host.read(0, 7, 64)), Some(24));
        assert_eq!(rt; refused(host.read(0, 0, 65)), Some(24));
        assert_eq!(rt; refused(host.read(0, usize::MAX, 2)), Some(24));
        assert_eq!(rt; refused(host.read(1, 0, 0)), Some(23));
        assert_eq!(rt; host.number(1), Ok(4_294_967_295));
        assert_eq!(rt; refused(host.number(2)), Some(23));
        Ok(())
    }

    // The widest variable has 65,536 bits; one more, and it is lacking.
    #[test]
    fn widest(rt: HostRuntime) -> Result<(), Fail> {
        let mut words = vec![in rt.alloc(); 0u64; 1025]?;
        let mut host = Laid::new(rt.alloc(), Words::new(&mut words), &[65_537, 65_536], &[])?;
        assert_eq!(rt; refused(host.width(0)), Some(23));
        assert_eq!(rt; host.width(1), Ok(65_536));
        assert_eq!(rt; refused(host.write(1, 65_473, 64, 5)), Some(24));
        assert_eq!(rt; refused(host.write(1, 65_472, 64, 5)), None);
        assert_eq!(rt; host.read(1, 65_474, 1), Ok(1));
        Ok(())
    }

    // In 64 bits: 0, 65,537 and 100 have no place, 20 and 44 fill the word, and nothing is left for 1.
    #[test]
    fn unfitting(rt: HostRuntime) -> Result<(), Fail> {
        let mut words = [0u64];
        let widths = [0, 65_537, 100, 20, 44, 1];
        {
            let mut host = Laid::new(rt.alloc(), Words::new(&mut words), &widths, &[])?;
            assert_eq!(rt; refused(host.width(0)), Some(23));
            assert_eq!(rt; refused(host.width(1)), Some(23));
            assert_eq!(rt; refused(host.width(2)), Some(23));
            assert_eq!(rt; host.width(3), Ok(20));
            assert_eq!(rt; host.width(4), Ok(44));
            assert_eq!(rt; refused(host.width(5)), Some(23));
            assert_eq!(rt; refused(host.write(4, 0, 1, 1)), None);
        }
        assert_eq!(rt; words, [0x10_0000]);
        Ok(())
    }

    // A refused write leaves every byte, those that belong to no variable too.
    #[test]
    fn refused_write(rt: HostRuntime) -> Result<(), Fail> {
        let mut bytes = [0xa5u8, 0x5a, 0xff];
        {
            let mut host = Laid::new(rt.alloc(), PackedBytes::new(&mut bytes), &[9, 30], &[])?;
            assert_eq!(rt; refused(host.write(0, 2, 8, 0)), Some(24));
            assert_eq!(rt; refused(host.write(0, 0, 0, 0)), Some(24));
            assert_eq!(rt; refused(host.write(1, 0, 1, 0)), Some(23));
            assert_eq!(rt; refused(host.write(9, 0, 1, 0)), Some(23));
        }
        assert_eq!(rt; bytes, [0xa5, 0x5a, 0xff]);
        Ok(())
    }

    // Bits 8 to 55 of the word are the variable, its bits 4 to 19 the second one of the window,
    // and of those 12 to 15 the second one of the window above.
    #[test]
    fn windows_pile_up(rt: HostRuntime) -> Result<(), Fail> {
        let mut words = [0xfedc_ba98_7654_3210];
        let host = Laid::new(rt.alloc(), Words::new(&mut words), &[8, 48], &[3])?;
        let lower = Window::new(host, 1, &[4, 100, 16]);
        assert_eq!(rt; lower.read(0, 0, 4), Ok(0x2));
        assert_eq!(rt; refused(lower.width(1)), Some(23));
        assert_eq!(rt; lower.read(2, 0, 16), Ok(0x6543));
        let mut upper = Window::new(lower, 2, &[12, 4]);
        assert_eq!(rt; upper.read(0, 0, 12), Ok(0x543));
        assert_eq!(rt; upper.number(0), Ok(3));
        assert_eq!(rt; refused(upper.write(1, 0, 5, 0)), Some(24));
        assert_eq!(rt; refused(upper.write(1, 0, 4, 0xa)), None);
        assert_eq!(rt; upper.into_below().into_below().read(1, 16, 4), Ok(0xa));
        assert_eq!(rt; words, [0xfedc_ba98_7a54_3210]);
        Ok(())
    }

    // A window shows 64 variables at most, and none of a lacking one.
    #[test]
    fn window_ends(rt: HostRuntime) -> Result<(), Fail> {
        let mut words = [0u64, 0];
        let widths = [1; 66];
        let host = Laid::new(rt.alloc(), Words::new(&mut words), &[128], &[])?;
        let window = Window::new(host, 0, &widths);
        assert_eq!(rt; window.width(63), Ok(1));
        assert_eq!(rt; refused(window.width(64)), Some(23));
        let empty = Window::new(window, 64, &widths);
        assert_eq!(rt; refused(empty.width(0)), Some(23));
        assert_eq!(rt; refused(empty.read(0, 0, 1)), Some(23));
        Ok(())
    }
}
