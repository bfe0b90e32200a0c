//! A trigger with the number of the command that defined it.
//! Definitions: specs/Definitions.antt. Tests: registry_tests/src/trigger_runs/tables.rt.
ghost use Rattle.std.specs.Prelude.{◌≡◌, IfOk};
ghost use Rattle.wm_triggers.specs.Definitions.{is_definition};

use wm_disk::NoMemory;
use wm_registry::Trigger;

/// A trigger, and the number of the accepted command that defined it: 0 if it was there when the server started. Two
/// definitions of one name are told apart by the number, never by their text.
#[derive(Drop)]
pub struct DefinedTrigger {
    pub number: u64,
    pub trigger: Trigger,
}

impl DefinedTrigger {
    /// The same definition again, which shares the trigger's parts. `NoMemory` as `Trigger::copy`.
    pub fn copy(&self) -> Result<DefinedTrigger, NoMemory>
        ensures { IfOk result (λ d. d ≡ self.now) }
    {
        let trigger = self.trigger.copy()?;
        Ok(DefinedTrigger {
            number: self.number,
            trigger,
        })
    }

    /// Whether it is the definition of this name and number.
    pub fn is(&self, name: &str, number: u64) -> bool
        ensures { result ≡ is_definition name.now number self.now }
    {
        self.trigger.name() == name && self.number == number
    }
}
