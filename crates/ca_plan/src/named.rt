//! The sites that options name.

ghost use Rattle.std.specs.Prelude.{◌≡◌, ◌↔◌, IsTrue, Contains, MatchOption, option_map, map};
ghost use Rattle.ca_model.specs.Plans.{IsNamed};
ghost use Rattle.ca_plan.specs.Planning.{site, named, IsSiteNumber, AreSiteNumbers, IsFirstNoSite};

use ca_flow::Code;
use ca_model::Numbers;

// Whether a number is a site's.
fn is_site(code: &Code, n: u32) -> bool
    ensures { IsTrue result ↔ IsSiteNumber code.now.source n }
{
    n >= 1 && n <= code.sites()
}

/// The numbers that are named.
pub(crate) fn named(only: &Option<Numbers>) -> &[u32]
    ensures { result.now ≡ named only.now }
{
    match only {
        None => &[],
        Some(numbers) => numbers.as_slice(),
    }
}

// Whether a number is among some.
fn is_among(numbers: &[u32], n: u32) -> bool
    ensures { IsTrue result ↔ Contains numbers.now n }
{
    numbers.contains(&n)
}

/// Whether a site is among those that are named, or none are.
pub(crate) fn is_named(only: &Option<Numbers>, n: u32) -> bool
    ensures { IsTrue result ↔ IsNamed (option_map (map site) only.now) (site n) }
{
    match only {
        None => true,
        Some(numbers) => is_among(numbers.as_slice(), n),
    }
}

/// The first of some numbers that is no site's.
pub(crate) fn first_no_site(code: &Code, numbers: &[u32]) -> Option<u32>
    ensures { MatchOption result (AreSiteNumbers code.now.source numbers.now) (λ n. IsFirstNoSite code.now.source numbers.now n) }
{
    'numbers: for n in numbers {
        if !is_site(code, *n) {
            return Some(*n);
        }
    }
    None
}
