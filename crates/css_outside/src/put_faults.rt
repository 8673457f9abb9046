ghost use Rattle.std.specs.Prelude.{◌≡◌, ◌≢◌, ◌≤◌, ◌↔◌, IsTrue};
ghost use Rattle.css_outside.specs.Counts.{Rose};
ghost use Rattle.css_outside.specs.Putting.{message};

/// How many puts failed: those to standard error, and those to all other names.
#[derive(Debug, Drop)]
pub(crate) struct PutFaults {
    pub(crate) messages: u64,
    pub(crate) others: u64,
}

impl PutFaults {
    pub(crate) fn none() -> PutFaults
        ensures messages { result.messages ≡ 0 }
        ensures others { result.others ≡ 0 }
    {
        PutFaults {
            messages: 0,
            others: 0,
        }
    }

    // Raises the count of a name.
    pub(crate) fn raise(&mut self, name: &str)
        ensures messages { self.old.messages ≤ self.new.messages }
        ensures others { self.old.others ≤ self.new.others }
        ensures own_messages { name.now ≢ message → self.new.messages ≡ self.old.messages }
        ensures own_others { name.now ≡ message → self.new.others ≡ self.old.others }
        ensures message_cause { name.now ≡ message → Rose self.old.messages self.new.messages }
        ensures cause { name.now ≢ message → Rose self.old.others self.new.others }
    {
        if is_message(name) {
            self.messages = self.messages.saturating_add(1);
        } else {
            self.others = self.others.saturating_add(1);
        }
    }
}

// Whether this is the name of standard error.
pub(crate) fn is_message(name: &str) -> bool
    ensures { IsTrue result ↔ (name.now ≡ message) }
{
    name == "!"
}
