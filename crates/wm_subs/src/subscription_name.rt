//! The name under which a client subscribes.
//! Definitions: specs/SubscriptionNames.antt. Tests: view_tests/src/shared/subscriptions/names.rt.
ghost use Rattle.std.specs.Prelude.{◌≡◌, ◌≢◌, ◌↔◌, ℕ, List, true, false, string_bytes, IfOk, IfErr, IsErrOf, IsUtf8};
ghost use Rattle.std.specs.Cmp.{partial_equiv_from_equiv};
ghost use Rattle.std.specs.Cmp.Lexicographic.{nat_list_eq_equiv};
ghost use Rattle.std.specs.Str.{bytes_eq};
ghost use Rattle.wm_subs.specs.SubscriptionNames.{is_subscription_name};

use std::alloc::Global;
use std::marker::Model;
use wm_disk::Refusal;

/// The most bytes of a subscription's name.
pub const MAX_SUBSCRIPTION_NAME: usize = 64;

/// The name of a subscription: a text of 1 to 64 bytes. Contracts see its bytes.
#[derive(Drop)]
pub struct SubscriptionName {
    text: String,
}

impl Model for SubscriptionName {
    ghost Value = { List ℕ };

    ghost view = { λ n. string_bytes n.text };

    ghost invariant = { λ n. is_subscription_name (string_bytes n.text) ≡ true };
}

/// Whether the text has 1 to 64 bytes.
fn is_name(text: &str) -> bool
    ensures { result ≡ is_subscription_name text.now }
{
    !text.is_empty() && text.len() <= MAX_SUBSCRIPTION_NAME
}

impl SubscriptionName {
    /// The name that the text is. `BadArguments` where it is empty or has more than 64 bytes, and
    /// `NoMemory` where its copy finds no room.
    pub fn read(alloc: Global, text: &str) -> Result<SubscriptionName, Refusal>
        ensures ok { IfOk result (λ n. (n ≡ text.now) × (is_subscription_name text.now ≡ true)) }
        ensures refused { IsErrOf result Refusal.BadArguments ↔ (is_subscription_name text.now ≡ false) }
        ensures kinds { IfErr result (λ e. e ≢ Refusal.NoMemory → e ≡ Refusal.BadArguments) }
    {
        if !is_name(text) {
            return Err(Refusal::BadArguments);
        }
        let text = String::from_str(alloc, text)?;
        Ok(SubscriptionName { text })
    }

    /// The name's text.
    pub fn as_str(&self) -> &str
        ensures value { result.now ≡ self.now }
        ensures rules { is_subscription_name self.now ≡ true }
        ensures utf8 { IsUtf8 self.now }
    {
        self.text.as_str()
    }
}

impl PartialEq for SubscriptionName {
    ghost eq = { bytes_eq };

    ghost laws = { partial_equiv_from_equiv nat_list_eq_equiv };

    fn eq(&self, other: &SubscriptionName) -> bool {
        self.text == other.text
    }
}

impl Eq for SubscriptionName {
    ghost laws = { nat_list_eq_equiv };
}
