//! Laws of recovery, each a function that does nothing.

ghost use Rattle.nx_recovery.specs.Details.{FaultsAreText};
ghost use Rattle.nx_recovery.specs.Existence.{EveryTextHasFaults, RecoverGivesFaults};
ghost use Rattle.nx_recovery.specs.Levels.{EndsAreOfElements, LevelsAreOne, LevelsAreTold, StatesTellLevels};
ghost use Rattle.nx_recovery.specs.ItemFaults.{SameEventsHaveItemFaults};
ghost use Rattle.nx_recovery.specs.SameEvents.{SameEventsLeadOnAlike};
ghost use Rattle.nx_recovery.specs.Uniqueness.{RecoveryIsOne};
ghost use Rattle.nx_recovery.specs.Validity.{NoFaultsHaveValidEvents, NoFaultsIsValid};
ghost use Rattle.nx_recovery.specs.Viability.{FramesStayViable};

/// A text has one list of faults at most, against a schema or none.
#[tactic(auto, using(crate::proofs::Uniqueness::recovery_is_one))]
pub fn recovery_is_one()
    ensures { RecoveryIsOne }
{}

/// Against a live schema or none, the rules of the machine over residuals find the faults of a text.
#[tactic(auto, using(crate::proofs::Along::recover_gives_faults))]
pub fn recover_gives_faults()
    ensures { RecoverGivesFaults }
{}

/// So each text has faults, at each event of which a row of the table applies.
#[tactic(auto, using(crate::proofs::Along::every_text_has_faults))]
pub fn every_text_has_faults()
    ensures { EveryTextHasFaults }
{}

/// Of a live schema, the levels that the rules over residuals have behind items of a text, and so those that a state of the machine
/// means behind tokens of a text, tell the levels of the definition, of which there are some and no others: what is left in each
/// frame, here and around, stands for its moves, and the open elements are of the same kinds and names. No frame goes on here
/// exactly where the innermost open element is lost. Where an element ends one is open, and it is of the frame here or lost.
pub fn levels_are_told()
    ensures told { LevelsAreTold }
    ensures states { StatesTellLevels }
    ensures one { LevelsAreOne }
    ensures ends { EndsAreOfElements }
{}

/// Of a live schema each frame behind an item of a text, here or around, keeps some list of events that can become valid.
pub fn frames_stay_viable()
    ensures { FramesStayViable }
{}

/// Against a live schema a text has no faults exactly where it is a document whose tree the schema matches.
pub fn no_faults_is_valid()
    ensures { NoFaultsIsValid }
{}

/// The same over items: they hold no fault, and their events are valid.
pub fn no_faults_have_valid_events()
    ensures { NoFaultsHaveValidEvents }
{}

/// The details of the faults of a text are UTF-8, as the text is.
pub fn faults_are_text()
    ensures { FaultsAreText }
{}

/// From one state, two lists of tokens of the same events lead to states of the same meaning, against any schema or none, where the
/// open elements with their scopes, the flags and the pending run are the same behind both.
#[tactic(auto, using(crate::proofs::SameEvents::same_events_lead_on_alike))]
pub fn same_events_lead_on_alike()
    ensures { SameEventsLeadOnAlike }
{}

/// Where no fault of a text is against the schema, each is one of its characters, markup, nesting and namespaces; and so is each fault of
/// any text with the same events.
pub fn same_events_have_item_faults()
    ensures { SameEventsHaveItemFaults }
{}
