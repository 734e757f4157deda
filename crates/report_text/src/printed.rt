//! Text that is ready to be written.
ghost use Rattle.std.specs.Prelude.{◌≡◌, ◌++◌, codes, OnOk};
ghost use Rattle.std.specs.Fmt.{decimal};
ghost use Rattle.std.specs.String.{string_bytes};

use memory::OutOfMemory;
use register_laws::OpId;
use std::alloc::Global;
use std::marker::Model;

/// Text that is ready to be written, as a line with its LF, which contracts see as its bytes.
#[derive(Debug, Drop)]
pub struct Printed {
    text: String,
}

impl Model for Printed {
    ghost use Rattle.std.specs.Prelude.{List, ℕ};
    ghost use Rattle.std.specs.String.{string_bytes};

    ghost Value = { List ℕ };

    ghost view = { λ a. string_bytes a.text };
}

impl Printed {
    pub(crate) fn new(text: String) -> Printed
        ensures { result ≡ string_bytes text }
    {
        Printed { text }
    }

    /// The text.
    pub fn as_str(&self) -> &str
        ensures { result.now ≡ self.now }
    {
        self.text.as_str()
    }

    /// The bytes of the text.
    pub fn as_bytes(&self) -> &[u8]
        ensures { result.now ≡ self.now }
    {
        self.text.as_bytes()
    }

    /// A space and the number of an operation, behind the rest.
    pub(crate) fn add_op(&mut self, alloc: Global, op: OpId) -> Result<(), OutOfMemory>
        ensures { OnOk result (self.new ≡ self.old ++ (codes " " ++ decimal op.0)) }
    {
        let number = format!(in alloc; " {}", op.0)?;
        self.text.push_str(number.as_str())?;
        Ok(())
    }
}
