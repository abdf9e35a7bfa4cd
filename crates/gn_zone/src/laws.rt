ghost use Rattle.gn_zone.specs.Filled.{FoundZonesAreFilledIn, OpenedZonesAreFound};
ghost use Rattle.gn_zone.specs.Opens.{EachOutputIsOpened};

use gn_stands::TreeMeanings;

/// What is found for a zone over given values is what is found over its constants by name, with the values
/// filled in.
pub fn found_zones_are_filled_in<N: TreeMeanings>()
    ensures { FoundZonesAreFilledIn N.Values }
{}

/// What was opened for a zone, with given values in the place of its constants, is what is found for the
/// zone over these values.
pub fn opened_zones_are_found<N: TreeMeanings>()
    ensures { OpenedZonesAreFound N.Values }
{}

/// What was opened for a zone has a link for each item of the zone's body.
pub fn each_output_is_opened()
    ensures { EachOutputIsOpened }
{}
