// How long a journal is at most.
ghost use Rattle.jr_commit.specs.Sizes.{IsWithinLimits, IsSmallFile, JournalFits};

use jr_base::Files;

/// Files within the limits have a journal that is short enough for a plan. The body does nothing: this is a law, for
/// the callers of `Plan::new`.
pub fn journal_fits(old: &Files, new: &Files)
    ensures within { IsWithinLimits old.now → IsWithinLimits new.now → JournalFits old.now new.now }
    ensures one_file { IsSmallFile old.now → IsSmallFile new.now → JournalFits old.now new.now }
{
    let _ = old;
    let _ = new;
}
