//! What holds of all tables on regions. Each function does nothing, and states a law.
ghost use Rattle.wasmi_meter.specs.Limiter.{optional_rules};
ghost use Rattle.wasmi_region.specs.Laws.{TableCreationsSucceed, TableGrowthsSucceed, CreationsAreTables, GrowthsAreTables};

use wasmi_meter::ResourceLimiter;

/// A table on a region of at least its minimum takes no memory: the limiter alone can refuse it.
#[tactic(auto, using(crate::proofs::LawsLemmas::table_creations_succeed))]
pub fn table_creations_succeed<L: ResourceLimiter>()
    ensures { TableCreationsSucceed (optional_rules L.rules) }
{}

/// A growth of a table for which its type and its region have room, and which can be paid for,
/// takes no memory: the limiter alone can refuse it.
#[tactic(auto, using(crate::proofs::LawsLemmas::table_growths_succeed))]
pub fn table_growths_succeed<L: ResourceLimiter>()
    ensures { TableGrowthsSucceed (optional_rules L.rules) }
{}

/// A table on a region is made and grows as one of `wasmi_store`, which owns its elements.
#[tactic(auto, using(crate::proofs::LawsLemmas::tables))]
pub fn region_tables_are_tables<L: ResourceLimiter>()
    ensures creations { CreationsAreTables (optional_rules L.rules) }
    ensures growths { GrowthsAreTables (optional_rules L.rules) }
{}
