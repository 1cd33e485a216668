//! Laws of the definitions, each carried by the contract of a function that does nothing.
ghost use Rattle.verdict_laws.specs.Laws.{OpinionsAreThere, OpinionsAreOne, VerdictsAreOpinions, OutlinesWantNoMemory};
ghost use Rattle.verdict_laws.specs.OwnOutlines.{PrintsStayInside, PrintsAreAnsweredInside};
ghost use Rattle.verdict_laws.specs.OwnOutlines.{SupportsGoOutside, PrintsAreAnsweredOutside};

use cli_read::laws::texts_say_one_list;
use plan_layer::laws::plans_keep_clear;
use print_laws::laws::plans_are_printable;
use support_laws::laws::supports_stand_apart;

/// There are right opinions on all programs, by all layers and all widths that settings can have.
pub fn opinions_are_there()
    ensures { OpinionsAreThere }
{}

/// All right opinions agree.
pub fn opinions_are_one()
    ensures { OpinionsAreOne }
{}

/// What the judgement of a program answers is the opinion on it, but for want of memory.
pub fn verdicts_are_opinions()
    ensures { VerdictsAreOpinions }
{}

/// No outlines want memory to be read: they say layers, or have a first line with a fault.
pub fn outlines_want_no_memory()
    ensures { OutlinesWantNoMemory }
{}

/// What extrudes along the program of a print without support lines stays inside, by the layers that are read of the
/// print's own outlines: this is the opinion on each such program that is within the limit of a file.
pub fn prints_stay_inside()
    ensures { PrintsStayInside }
{
    supports_stand_apart();
    plans_keep_clear();
    plans_are_printable();
    texts_say_one_list();
}

/// So the judgement of such a program answers that its moves stay inside, unless memory is wanting.
pub fn prints_are_answered_inside()
    ensures { PrintsAreAnsweredInside }
{
    verdicts_are_opinions();
    prints_stay_inside();
}

/// Of the moves that extrude along the program of a print the first along a support goes outside, where there is one, and
/// those before it stay inside.
pub fn supports_go_outside()
    ensures { SupportsGoOutside }
{
    supports_stand_apart();
    plans_keep_clear();
    plans_are_printable();
    texts_say_one_list();
}

/// So the judgement of such a program answers that this move goes outside, unless memory is wanting.
pub fn prints_are_answered_outside()
    ensures { PrintsAreAnsweredOutside }
{
    verdicts_are_opinions();
    supports_go_outside();
}
