// Examples of orders, of what they come to, and of the log.
#![tactic(auto)]

#[cfg(test)]
mod tests {
    use interpreter::run;
    use line::{Frames, Log};
    use orders::{Instruction, Order, Outcome};
    use std::test::Fail;

    // Each row breaks one rule of the format.
    #[test]
    fn malformed_orders_are_refused(rt: HostRuntime) {
        let rows: [&[u8]; 12] = [
            &[],
            &[0, 0],
            // a byte too many
            &[0, 0, 0, 0],
            // keys that do not rise
            &[2, 0, 5, 0, 5, 0, 0],
            &[0, 2, 0, 5, 0, 4, 0],
            // a key cut in two
            &[1, 0],
            // seventeen keys
            &[
                17, 0, 1, 0, 2, 0, 3, 0, 4, 0, 5, 0, 6, 0, 7, 0, 8, 0, 9, 0, 10, 0, 11, 0, 12, 0,
                13, 0, 14, 0, 15, 0, 16, 0, 17, 0, 0,
            ],
            // register 32
            &[0, 0, 1, 5, 32, 0, 0, 0, 7],
            &[0, 0, 1, 1, 0, 32, 0],
            // slot 1 of a write set of one key
            &[0, 1, 0, 9, 1, 7, 1, 0],
            // unknown kinds
            &[0, 0, 1, 0],
            &[0, 0, 1, 9],
        ];
        for row in rows {
            assert!(rt; Order::decode(row).is_err(), "refused");
        }
        assert!(rt; Order::decode(&[0, 0, 0]).is_ok(), "the empty order");
    }

    #[test]
    fn an_order_survives_its_bytes(rt: HostRuntime) -> Result<(), Fail> {
        let code = [
            Instruction::Set {
                to: 3,
                number: 0x0102_0304,
            },
            Instruction::SkipIfBelow {
                left: 0,
                right: 3,
                count: 200,
            },
            Instruction::Write { slot: 1, from: 3 },
            Instruction::Abort,
        ];
        let order = Order::new(&[1, 258], &[7, 65535], &code)?;
        let bytes = order.encode(rt.alloc())?;
        let expected = [
            2, 0, 1, 1, 2, 2, 0, 7, 255, 255, 4, 5, 3, 1, 2, 3, 4, 6, 0, 3, 200, 7, 1, 3, 8,
        ];
        assert!(rt; bytes.as_slice() == expected.as_slice(), "the bytes");
        let again = Order::decode(bytes.as_slice())?;
        assert!(rt; again == order);
        assert!(rt; again.reads() == order.reads());
        assert!(rt; again.writes() == order.writes());
        assert_eq!(rt; again.code().len(), 4);
        Ok(())
    }

    // What a register says is written, and an abort takes it back.
    #[test]
    fn an_abort_takes_back_what_was_said(rt: HostRuntime) -> Result<(), Fail> {
        let said = [
            Instruction::Set { to: 0, number: 7 },
            Instruction::Write { slot: 0, from: 0 },
            Instruction::Abort,
        ];
        let writes = Order::new(&[], &[4], &said[0..2])?;
        match run(&writes, &[]) {
            Outcome::Writes(values) => assert_eq!(rt; values[0], 7),
            Outcome::Nothing => return Err(Fail::new("it writes")),
        }
        let aborts = Order::new(&[], &[4], &said)?;
        match run(&aborts, &[]) {
            Outcome::Writes(_) => Err(Fail::new("it writes nothing")),
            Outcome::Nothing => Ok(()),
        }
    }

    // A key that was read and not said stays; one that was neither read nor said becomes 0.
    #[test]
    fn an_unsaid_key_stays_only_where_it_was_read(rt: HostRuntime) -> Result<(), Fail> {
        let order = Order::new(&[2, 9], &[9, 30], &[])?;
        match run(&order, &[11, 12]) {
            Outcome::Writes(values) => {
                assert_eq!(rt; values[0], 12);
                assert_eq!(rt; values[1], 0);
                Ok(())
            }
            Outcome::Nothing => Err(Fail::new("it writes")),
        }
    }

    #[test]
    fn a_log_grows_and_is_read_again(rt: HostRuntime) -> Result<(), Fail> {
        let mut log = Log::new(rt.alloc());
        let first = log.append(&[0, 0, 0])?;
        let second = log.append(&[])?;
        assert_eq!(rt; first, 0);
        assert_eq!(rt; second, 1);
        assert!(rt; log.as_bytes() == [0, 3, 0, 0, 0, 0, 0].as_slice());
        let whole = log.as_bytes();
        let mut frames = Frames::new(whole);
        assert!(rt; frames.next().is_some());
        assert!(rt; frames.next().is_some());
        assert!(rt; frames.next().is_none());
        Ok(())
    }
}
