//! That a server reads what devices ask, by the definitions alone. The functions call the laws below them and do nothing else;
//! their contracts are the laws.

ghost use Rattle.sn_readable.specs.Laws.{MadeAreReadable, MadeStayReadable, ReadableIfAnswered, RunsReadable};

use sn_link::readable_within;
use sn_world::steps_fit;

/// Each request of a call is one that a server reads, where those before it were answered as the server answers.
pub fn runs_readable()
    ensures { RunsReadable }
{
    readable_within();
    steps_fit();
}

/// So all of them are, where each has a fate.
pub fn readable_if_answered()
    ensures { ReadableIfAnswered }
{}

/// Behind a line of the world each request that was ever made is one that a server reads.
pub fn made_stay_readable()
    ensures { MadeStayReadable }
{}

/// So one that is delivered late or again is.
pub fn made_are_readable()
    ensures { MadeAreReadable }
{}
