// What an OUTPUT statement asks for is read by the words and signs in it. These laws say that its
// names are read where the grammar has them, and what holds of the names of all outputs.

ghost use Rattle.std.specs.Prelude.{◌≡◌, ◌++◌, List, Ok, All};
ghost use Rattle.std.specs.List.{AllByRecursion, IsDistinct};
ghost use Rattle.fx_language.specs.Grammar as grammar;
ghost use Rattle.fx_text.specs.Names.{is_same_name};
ghost use Rattle.fx_text.specs.Sentences.{IsAccepted, IsStatement};
ghost use Rattle.fx_text.specs.Written.{Written};
ghost use Rattle.fx_outputs.specs.Contexts.{Context};
ghost use Rattle.fx_outputs.specs.Earlier.{HasFewRows, file_columns, plan_names};
ghost use Rattle.fx_outputs.specs.Histories.{built};
ghost use Rattle.fx_outputs.specs.Outputs.{names_of, output_spec, outputs_of, plan_behind};
ghost use Rattle.fx_outputs.specs.Readings.{AreOptionsRead, NamesEarlier};
ghost use Rattle.fx_outputs.specs.Validity.{HasItsNames};
ghost use Rattle.fx_outputs.specs.declared.earlier.EarlierPlan.{EarlierPlan};
ghost use Rattle.fx_outputs.specs.declared.output.OutputSpec.{OutputSpec};

/// What is read as the OUT name of an OUTPUT statement is what the grammar has there, and its options
/// are those of the grammar, one after another.
pub fn names_are_read_by_the_grammar()
    ensures { (s : List Written) → IsStatement grammar.output s → AreOptionsRead s }
{}

/// The names of the outputs of accepted statements have 1 to 32 bytes, and no factor has the name of
/// the column of blocks.
pub fn outputs_have_names()
    ensures { (context : Context) (earlier : List EarlierPlan) (statements : List (List Written))
        (outputs : List OutputSpec) → AllByRecursion IsAccepted statements
        → outputs_of context earlier statements ≡ Ok outputs → All (HasItsNames context) outputs }
{}

/// A plan that an OUTPUT statement names is an earlier one, of the name that is written.
pub fn named_plans_are_earlier()
    ensures { (context : Context) (earlier : List EarlierPlan) (word name : Written)
        (s : List (List Written)) (output : OutputSpec)
        → output_spec context earlier word name s ≡ Ok output → NamesEarlier earlier s output }
{}

/// Each file has at most 200,000 rows, with the rows of the plans that it is repeated by.
pub fn plans_keep_the_limit()
    ensures { (context : Context) (earlier : List EarlierPlan) (statements : List (List Written))
        (outputs : List OutputSpec) → All HasFewRows earlier
        → outputs_of context earlier statements ≡ Ok outputs
        → All HasFewRows (built (plan_behind context) earlier outputs) }
{}

/// OUT names differ from one another and from those before them, without regard to case.
pub fn out_names_differ()
    ensures { (context : Context) (earlier : List EarlierPlan) (statements : List (List Written))
        (outputs : List OutputSpec) → IsDistinct is_same_name (plan_names earlier)
        → outputs_of context earlier statements ≡ Ok outputs
        → IsDistinct is_same_name (plan_names earlier ++ names_of outputs) }
{}

/// No two columns of a file have the same name, without regard to case: neither of its own, nor of the
/// plans that it names.
pub fn columns_differ()
    ensures { (context : Context) (earlier : List EarlierPlan) (statements : List (List Written))
        (outputs : List OutputSpec) → IsDistinct is_same_name context.factors
        → All (IsDistinct is_same_name) (file_columns earlier)
        → AllByRecursion IsAccepted statements
        → outputs_of context earlier statements ≡ Ok outputs
        → All (IsDistinct is_same_name) (file_columns (built (plan_behind context) earlier outputs)) }
{}
