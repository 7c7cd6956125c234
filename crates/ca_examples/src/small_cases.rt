//! Small cases of the definitions.

ghost use Rattle.ca_examples.specs.SmallCases.{NextInTurn, FirstAgain, AtTheWord, OfASeed, Prints, TwoActivations, TwoSince, WaitsOut, LatestFirst};

/// A pick by a list that is used up goes on in turn; one by a seed takes the enabled thread at a word. A `printf` writes a number and a percent. A list has its activations and their tries, and counts the entries since a thread's last one, by which the thread has waited out. Things that were taken are given back the latest first.
pub fn small_cases_compute()
    ensures next_in_turn { NextInTurn }
    ensures first_again { FirstAgain }
    ensures at_the_word { AtTheWord }
    ensures of_a_seed { OfASeed }
    ensures prints { Prints }
    ensures two_activations { TwoActivations }
    ensures two_since { TwoSince }
    ensures waits_out { WaitsOut }
    ensures latest_first { LatestFirst }
{}
