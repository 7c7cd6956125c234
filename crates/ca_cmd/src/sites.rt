// Makes the table of the sites of a source.
ghost use Rattle.std.specs.Prelude.{◌≡◌, ◌≤◌, ℕ, List};
ghost use Rattle.ca_io.specs.Ports.{load_port};
ghost use Rattle.ca_commands.specs.Options.{plan_options, sites_options};
ghost use Rattle.ca_commands.specs.Words.{Means, Sites};
ghost use Rattle.ca_cmd.specs.Hardening.{wanted};
ghost use Rattle.ca_cmd.specs.Serving.{ask_port, Makes, Tables};

use crate::hardening::options;
use crate::reading::open_source;
use crate::refusals::{Refusal, ServeNo};
use ca_commands::{PlanWords, SitesWords};
use ca_io::Files;
use ca_model::Checked;
use ca_plan::{PlanNo, site_table};
use ca_tree::{NoMemory, Text};
use std::alloc::Global;

// The table of a source, or the first number that is named and no site's.
fn table(alloc: Global, checked: &Checked, words: &PlanWords) -> Result<Text, ServeNo>
    requires limit { (wanted (plan_options words.now)).limit ≤ 10000 }
    requires depth { (wanted (plan_options words.now)).depth ≤ 8 }
    ensures { Tables (plan_options words.now) checked.now result }
{
    let options = match options(alloc, words) {
        Ok(options) => options,
        Err(NoMemory) => return Err(ServeNo::NoMemory),
    };
    match site_table(alloc, checked, &options) {
        Ok(text) => Ok(Text::from_vec(text)),
        Err(PlanNo::NoSuchSite { number }) => {
            Err(ServeNo::Refused(Refusal::NoSuchSite { number }))
        }
        Err(PlanNo::NoMemory) => Err(ServeNo::NoMemory),
    }
}

/// Makes the table of the places at which the source in a file may fail, each with what becomes of it under the plan that the
/// words say.
pub fn sites_text<F: Files>(
    alloc: Global,
    words: &SitesWords,
    files: &mut F,
) -> Result<Text, ServeNo>
    requires { (said : List (List ℕ)) × Means said (Sites (sites_options words.now)) }
    ensures made { (said : List (List ℕ)) → Means said (Sites (sites_options words.now)) → Makes said
        (load_port F.holds F.faults files.old files.new)
        (ask_port F.asked files.old files.new) (Sites (sites_options words.now)) result }
    ensures kept { F.holds files.new ≡ F.holds files.old }
{
    let checked = match open_source(alloc, words.name.as_str(), files) {
        Ok(checked) => checked,
        Err(no) => return Err(no),
    };
    match table(alloc, &checked, &words.plan) {
        Ok(text) => Ok(text),
        Err(no) => Err(no),
    }
}
