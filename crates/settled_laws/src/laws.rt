//! The law of settled components, the contract of a function that does nothing.
ghost use Rattle.settled_laws.specs.Laws.{AllAreAimed, CollectedAreKnown, CollectedAreMany, SettledIsAll, SettledWerePublished};

use claim_laws::Meaning;

/// Where the components that an aim reaches are settled, and each entry that a book collects of them has the answer that its key is
/// given, the entries are what is known of these components, keys and answers alike; there is one for each; and the aim at all reaches all
/// that is known. At least as many answers were published as components are settled.
pub fn settled_is_known<J: Meaning>()
    ensures collected { CollectedAreKnown J.solves }
    ensures many { CollectedAreMany }
    ensures aimed { AllAreAimed }
    ensures settled { SettledIsAll }
    ensures published { SettledWerePublished }
{}
