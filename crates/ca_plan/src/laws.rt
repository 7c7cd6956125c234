//! Laws of plans, of tables of sites, and of their refusals.

ghost use Rattle.ca_plan.specs.Planning.{OnePlan, OneFirstNoSite};
ghost use Rattle.ca_plan.specs.SiteTables.{OneSiteTable};

/// A source and options have at most one plan, and numbers have at most one first that is no site's.
pub fn a_source_has_one_plan()
    ensures plan { OnePlan }
    ensures no_such_site { OneFirstNoSite }
{}

/// A source and options have at most one table of sites.
pub fn a_source_has_one_site_table()
    ensures { OneSiteTable }
{}
