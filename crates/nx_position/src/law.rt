//! Laws of positions. Nothing here runs.

ghost use Rattle.nx_position.specs.Changes.{ChangesLeaveText};
ghost use Rattle.nx_position.specs.Positions.{ColumnsAreCodeUnits, ColumnsAreReached, PlacesLeadBack, PositionsLeadToPlaces};
ghost use Rattle.nx_position.specs.Steps.{PositionsGoOn};

/// What a column counts are the code units of the characters in front of it.
pub fn columns_are_code_units()
    ensures { ColumnsAreCodeUnits }
{}

/// A column is reached by the longest front of a line that takes no more code units.
pub fn columns_are_reached()
    ensures { ColumnsAreReached }
{}

/// The position of a place leads back to it, but for a place that parts the end of a line.
pub fn places_lead_back()
    ensures { PlacesLeadBack }
{}

/// Every position, also one outside of the text, leads to a place of it.
pub fn positions_lead_to_places()
    ensures { PositionsLeadToPlaces }
{}

/// A change of a text leaves a text.
pub fn changes_leave_text()
    ensures { ChangesLeaveText }
{}

/// Positions go on from the text's start, a step for each byte.
pub fn positions_go_on()
    ensures { PositionsGoOn }
{}
