use super::one_file;
use crate::run::run;
use crate::status::Status;
use css_outside::{Outbox, PutFailed};
use css_tokens::{List, OutOfMemory, Text};
use std::alloc::Global;
use std::test::Fail;
use work_pool::NoGate;

// An outbox of which the first puts take one byte each, and the others none.
#[derive(Drop)]
struct Stingy {
    alloc: Global,
    ready: List<Text<'static>>,
    left: u32,
    puts: u32,
    message_faults: u64,
    faults: u64,
}

impl Outbox for Stingy {
    ghost use Rattle.std.specs.Prelude.{None};

    ghost held = { λ _. None };

    ghost ready = { λ all. all.ready };

    ghost message_faults = { λ all. all.message_faults };

    ghost faults = { λ all. all.faults };

    fn make_ready(&mut self, name: &str) -> Result<(), OutOfMemory> {
        let name = String::from_str(self.alloc, name)?;
        self.ready.push(Text::owned(name))
    }

    fn put(&mut self, name: &str, piece: &[u8]) -> Result<usize, PutFailed> {
        if piece.is_empty() {
            return Ok(0);
        }
        if name == "!" {
            self.message_faults = self.message_faults.saturating_add(1);
            return Ok(0);
        }
        self.puts = self.puts.saturating_add(1);
        if self.left > 0 {
            self.left -= 1;
            return Ok(1);
        }
        self.faults = self.faults.saturating_add(1);
        Ok(0)
    }
}

#[test]
fn puts_again_only_after_a_byte_was_taken(rt: HostRuntime) -> Result<(), Fail> {
    // The text has 14 bytes.
    let rows = [
        (0, 1, Status::WriteFault),
        (1, 2, Status::WriteFault),
        (13, 14, Status::WriteFault),
        (14, 14, Status::Done),
        (99, 14, Status::Done),
    ];
    for (left, puts, answer) in rows {
        let text = Vec::from_slice(rt.alloc(), b".a { color: red }")?;
        let mut files = one_file(rt.alloc(), "a.css", text, false)?;
        let mut out = Stingy {
            alloc: rt.alloc(),
            ready: List::new(rt.alloc()),
            left,
            puts: 0,
            message_faults: 0,
            faults: 0,
        };
        let status = run(rt.alloc(), &["a.css"], &mut files, &mut out, &NoGate);
        assert_eq!(rt; status, answer);
        assert_eq!(rt; out.puts, puts);
    }
    Ok(())
}
