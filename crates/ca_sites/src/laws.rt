//! The laws of sites, the contracts of functions that do nothing.

ghost use Rattle.ca_sites.specs.SiteLaws.{ValuesHavePlaces, TargetsHavePlaces, TextShowsSites};

/// Where an expression has a typed tree, that has a site for each place of one in the text, and each is a load; and so has
/// what is assigned to.
pub fn loads_have_their_places()
    ensures values { ValuesHavePlaces }
    ensures targets { TargetsHavePlaces }
{}

/// The sites of a typed tree, in order, are those in the text, each with the item and the kind that it has there.
pub fn text_shows_sites()
    ensures { TextShowsSites }
{}
