//! Where states and posts lead, and what that says of rows of execution.
ghost use Rattle.sound_laws.specs.Leading.{
  CasesDo,
  CoveredPostLeads,
  CoveredStateLeads,
  ListedPostLeads,
  ListedStateLeads,
  PostLeadsOn,
  RowMayWeaken,
  StateLeadsOn,
};

/// What leads to cases leads to what each of them leads to.
pub fn cases_lead_on()
    ensures states { StateLeadsOn }
    ensures posts { PostLeadsOn }
{}

/// A state, or a post, leads to each list that has it.
pub fn listed_leads()
    ensures states { ListedStateLeads }
    ensures posts { ListedPostLeads }
{}

/// A state, or a post, leads to each list that has something which covers a form of it.
pub fn covered_leads()
    ensures states { CoveredStateLeads }
    ensures posts { CoveredPostLeads }
{}

/// A state does what all its cases do.
pub fn cases_do()
    ensures { CasesDo }
{}

/// Successors and exits may be replaced by others that are met wherever they are.
pub fn row_may_weaken()
    ensures { RowMayWeaken }
{}
