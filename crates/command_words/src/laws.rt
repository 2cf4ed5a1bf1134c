//! Laws that hold of all words.

ghost use Rattle.std.specs.Prelude.{◌≡◌, ◌<◌, ◌≤◌, ◌^◌, ◌∷◌, [], List, ℕ, codes, decimal, true, Ok, Err};
ghost use Rattle.command_words.specs.Numbers.{IsNumber};
ghost use Rattle.command_words.specs.Commands.{Command, run, trial, IsCommand};
ghost use Rattle.command_words.specs.Machine.{command_of};
ghost use Rattle.command_words.specs.Options.{usual};
ghost use Rattle.command_words.specs.Laws.{IsPlace};

/// A number within bounds is written in one way, as it is printed.
pub fn numbers_are_decimals()
    ensures told { (least most : ℕ) (word : List ℕ) (n : ℕ) → most < 2 ^ 64 → IsNumber least most word n
        → word ≡ decimal n }
    ensures only { (least most n : ℕ) → most < 2 ^ 64 → least ≤ n → n ≤ most
        → IsNumber least most (decimal n) n }
{}

/// A command is read exactly where the words are one.
pub fn commands_are_told()
    ensures told { (words : List (List ℕ)) (c : Command) → IsCommand words c → command_of words ≡ Ok c }
    ensures only { (words : List (List ℕ)) (c : Command) → command_of words ≡ Ok c → IsCommand words c }
{}

/// A place is told exactly where a word is wrong or missing there, and none is wrong before it.
pub fn places_are_told()
    ensures told { (words : List (List ℕ)) (k : ℕ) → IsPlace words k → command_of words ≡ Err k }
    ensures only { (words : List (List ℕ)) (k : ℕ) → command_of words ≡ Err k → IsPlace words k }
{}

/// Some places.
#[tactic(auto, unfolding(crate::specs::Machine::command_of))]
pub fn places_are_so()
    ensures no_word { command_of [] ≡ Err 0 }
    ensures no_command { command_of (codes "fly" ∷ []) ≡ Err 0 }
    ensures no_file { command_of (codes "run" ∷ []) ≡ Err 1 }
    ensures no_point { command_of (codes "run" ∷ codes "p" ∷ codes "--chunk" ∷ codes "0" ∷ []) ≡ Err 3 }
    ensures twice { command_of (codes "run" ∷ codes "p" ∷ codes "--chunk" ∷ codes "4" ∷ codes "--chunk" ∷
        codes "4" ∷ []) ≡ Err 4 }
    ensures no_number { command_of (codes "run" ∷ codes "p" ∷ codes "--chunk" ∷ []) ≡ Err 3 }
    ensures read { command_of (codes "run" ∷ codes "p" ∷ codes "--whole" ∷ codes "--chunk" ∷ codes "4" ∷ [])
        ≡ Ok (run (codes "p") (record usual { chunk = 4; whole = true })) }
    ensures no_stop { command_of (codes "run" ∷ codes "p" ∷ codes "--stop" ∷ []) ≡ Err 3 }
    ensures no_last { command_of (codes "run" ∷ codes "p" ∷ codes "--stop" ∷ codes "last" ∷ []) ≡ Err 3 }
    ensures stop_twice { command_of (codes "run" ∷ codes "p" ∷ codes "--stop" ∷ codes "first" ∷ codes "--stop" ∷
        codes "first" ∷ []) ≡ Err 4 }
    ensures stops { command_of (codes "trial" ∷ codes "5" ∷ codes "--queue" ∷ codes "1" ∷ codes "--stop" ∷
        codes "first" ∷ []) ≡ Ok (trial 5 (record usual { queue = 1; stop_first = true })) }
{}
