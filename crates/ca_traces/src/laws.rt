//! Laws of the texts of traces.

ghost use Rattle.std.specs.Prelude.{◌≡◌, ℕ, ◌≤◌, ◌++◌, List, All, length};
ghost use Rattle.ca_model.specs.declared.values.Event.{Event};
ghost use Rattle.ca_model.specs.Traces.{trace_lines};
ghost use Rattle.ca_traces.specs.Writable.{IsWritable};
ghost use Rattle.ca_traces.specs.Readings.{text_of, most_entries, MayFollow, IsReading, LacksReading};

/// A list of at most 2,000,000 entries that can be written has one text, which is read as it. Any other text that is read as
/// it is this one with the rest of a report behind it.
pub fn what_is_written_is_read()
    ensures read_back { (events : List Event) → All IsWritable events → length events ≤ most_entries → IsReading (text_of (trace_lines events)) events }
    ensures one_text { (text : List ℕ) (events : List Event) → IsReading text events → (behind : List ℕ) × (text ≡ text_of (trace_lines events) ++ behind) × MayFollow behind }
{}

/// A text is read as at most one list of entries. Where it is read, each line has a reading, and where it isn't, one line is
/// the first without.
pub fn a_text_has_one_reading()
    ensures one_list { (text : List ℕ) (es fs : List Event) → IsReading text es → IsReading text fs → es ≡ fs }
    ensures not_both { (text : List ℕ) (events : List Event) (line : ℕ) → IsReading text events → LacksReading text line → ⊥ }
    ensures one_line { (text : List ℕ) (k l : ℕ) → LacksReading text k → LacksReading text l → k ≡ l }
{}
