//! Counted checks for the tests of all layers. A test reports the first one that failed.
#![tactic(auto)]

ghost use Rattle.std.specs.Prelude.{◌≡◌, ◌||◌, false, not, is_err, OnOk, IsTrue};

pub mod codes;

use std::alloc::Global;
use std::fmt::{Debug, Display};
use std::test::Fail;

/// The checks of a test. A failure is recorded until the test asks for its verdict, so that a test has one end and no
/// branch for each check.
#[derive(Drop)]
pub struct Checks {
    /// How many checks were made, modulo 2^64.
    pub count: u64,
    /// Whether one of them failed.
    pub has_failed: bool,
    /// The message of the first that failed.
    pub why: String,
}

impl Checks {
    /// No check so far.
    pub fn new(alloc: Global) -> Checks
        ensures { result.has_failed ≡ false }
    {
        Checks {
            count: 0,
            has_failed: false,
            why: String::new(alloc),
        }
    }

    // Counts a check, and records its message if it is the first that failed.
    fn check(&mut self, is_so: bool, says: impl Display + Drop)
        ensures { self.new.has_failed ≡ (self.old.has_failed || not is_so) }
    {
        self.count = self.count.wrapping_add(1);
        if !is_so && !self.has_failed {
            self.has_failed = true;
            let count = self.count;
            // If the allocation for the message fails, the test still fails.
            let _ = write!(self.why, "check {count}: {says}");
        }
    }

    /// Checks that a condition holds.
    pub fn holds(&mut self, is_so: bool)
        ensures { self.new.has_failed ≡ (self.old.has_failed || not is_so) }
    {
        self.check(is_so, "it does not hold");
    }

    /// The same, at a row of a table.
    pub fn holds_at(&mut self, at: impl Display + Drop, is_so: bool)
        ensures { self.new.has_failed ≡ (self.old.has_failed || not is_so) }
    {
        self.check(is_so, format_args!("at {at}"));
    }

    /// Checks that two values are equal.
    pub fn same<T: PartialEq + Debug + Drop>(&mut self, got: T, wanted: T)
        ensures { self.new.has_failed ≡ (self.old.has_failed || not (T.eq got wanted)) }
    {
        let is_same = got == wanted;
        self.check(is_same, format_args!("{got:?}, wanted {wanted:?}"));
    }

    /// The same, at a row of a table.
    pub fn same_at<T: PartialEq + Debug + Drop>(
        &mut self,
        at: impl Display + Drop,
        got: T,
        wanted: T,
    )
        ensures { self.new.has_failed ≡ (self.old.has_failed || not (T.eq got wanted)) }
    {
        let is_same = got == wanted;
        self.check(is_same, format_args!("at {at}: {got:?}, wanted {wanted:?}"));
    }

    /// Checks the text that a value is displayed as.
    pub fn displays<T: Display>(&mut self, alloc: Global, value: &T, text: &str) -> Result<(), Fail>
        ensures { IsTrue self.old.has_failed → IsTrue self.new.has_failed }
    {
        let shown = format!(in alloc; "{value}")?;
        self.same(shown.as_str(), text);
        Ok(())
    }

    /// Checks the text of a value by `Debug`.
    pub fn debugs<T: Debug>(&mut self, alloc: Global, value: &T, text: &str) -> Result<(), Fail>
        ensures { IsTrue self.old.has_failed → IsTrue self.new.has_failed }
    {
        let shown = format!(in alloc; "{value:?}")?;
        self.same(shown.as_str(), text);
        Ok(())
    }

    /// The end of a test: an error if a check failed, which says which check and why.
    pub fn verdict(self) -> Result<(), Fail>
        ensures { is_err result ≡ self.has_failed }
    {
        if self.has_failed {
            return Err(Fail::new(self.why.as_str()));
        }
        Ok(())
    }
}
