//! Laws of the command line, each the contract of a function that does nothing.
ghost use Rattle.std.specs.Prelude.{◌≡◌, ◌∷◌, [], List, Some, true, false, codes};
ghost use Rattle.clap.specs.Words.{Row, Text, fault_of, is_simple, subcommand_of};
ghost use Rattle.clap.specs.Faults.{is_simple_and_free};
ghost use Rattle.dam_line.specs.Line.{AreRefused, AsksFor, HasPlan, IsInItsRange, IsOption, OptionTerms, plan_of, program};

use crate::line::Job;

/// The program's command is simple, and no option has a rule on another. For such a command the
/// contracts of `clap` state the exact answer to any words.
pub fn exactness()
    ensures simple { is_simple program ≡ true }
    ensures free { is_simple_and_free program ≡ true }
{}

/// If `clap` takes the words of a subcommand that has a plan, then its matches give each option a number in the option's range: the
/// number of the words, or the default. So [`read_job`](crate::read_job) never puts a default in the place of a number that
/// the words give.
pub fn numbers_are_in_range()
    ensures { (words : List Text) (found : Text × List Row) (option : OptionTerms)
        → fault_of program words ≡ [] → subcommand_of program words ≡ Some found
        → HasPlan found.0 → IsOption option → IsInItsRange option found.1 }
{}

/// Some words, and the jobs that they ask for.
pub fn examples()
    ensures replay { AsksFor (codes "replay" ∷ []) Job.Replay }
    ensures defaults { AsksFor (codes "clear" ∷ []) (Job.Clear (plan_of 2 3 67108864)) }
    ensures options { AsksFor (codes "day" ∷ codes "--cut" ∷ codes "0"
        ∷ codes "--workers=8" ∷ [])
        (Job.Day (plan_of 8 0 67108864)) }
    ensures help { AreRefused (codes "clear" ∷ codes "--help" ∷ []) true }
    ensures unknown { AreRefused (codes "sell" ∷ []) false }
    ensures nothing { AreRefused [] false }
{}
