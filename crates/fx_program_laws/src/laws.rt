ghost use Rattle.std.specs.Prelude.{◌≡◌, ◌↔◌, ◌<◌, ◌≤◌, ◌+◌, [], ◌∷◌, List, ℕ, Ok, IfErr, IsTrue, true, false, codes, length, All};
ghost use Rattle.std.specs.List.{IsDistinct, list_any};
ghost use Rattle.fx_designs.specs.Galois.{is_order};
ghost use Rattle.fx_table_lines.specs.declared.line.TableLine.{TableLine};
ghost use Rattle.fx_program.specs.declared.table_words.AskedTable.{AskedTable};
ghost use Rattle.fx_program.specs.TableWords.{first_line};
ghost use Rattle.fx_program.specs.Tables.{HasNone, IsTable, is_nothing};
ghost use Rattle.fx_program.specs.Messages.{HasItsMessage};
ghost use Rattle.fx_designs.specs.Matrices.{NoneMeets};
ghost use Rattle.fx_designs.specs.Problems.{Dimensions, Problem};
ghost use Rattle.fx_laws.specs.First.{IsFirstDesign};
ghost use Rattle.fx_statements.specs.Steps.{Meaning};
ghost use Rattle.fx_program_laws.specs.BookClaims.{
  HasABookForEach,
  HasABookForEachAsked,
  HasAcceptedBook,
  HasAcceptedBooks,
  HighestHasBook,
  HighestInBlocksHasBook,
  LeastPatternHasBook,
  LeastSizeHasBooks,
  MostBlocksHasBook,
};
ghost use Rattle.fx_statements.specs.Questions.{asked, last_of, nodes_of, questions_of, resolution_wanted};
ghost use Rattle.fx_program.specs.Making.{HasSteps, made_text};
ghost use Rattle.fx_text.specs.Names.{is_same_name};
ghost use Rattle.fx_vectors.specs.Matrix.{MatrixView};
ghost use Rattle.fx_vectors.specs.declared.book.Book.{Book};
ghost use Rattle.fx_book.specs.Heads.{book_of};
ghost use Rattle.fx_book.specs.Writing.{book_text};
ghost use Rattle.fx_program.specs.Files.{names_among};
ghost use Rattle.fx_program.specs.Texts.{program_in};
ghost use Rattle.fx_designs.specs.Outcomes.{Design, NoDesign};
ghost use Rattle.fx_program.specs.declared.words.Settings.TheVariants.{Catalogue, Large, Run};
ghost use Rattle.fx_program.specs.CommandLine.{IsCatalogue};
ghost use Rattle.fx_catalogue.specs.Catalogues.{Entry, entries, shape_at};
ghost use Rattle.fx_program.specs.Commands.{AreGiven, command_of};
ghost use Rattle.fx_program.specs.Output.{Output, message, program_output, step_output, step_status};
ghost use Rattle.fx_program.specs.Planning.{planned_in, planned_output};
ghost use Rattle.fx_program.specs.Plans.{AskedView};
ghost use Rattle.fx_program_laws.specs.Endings.{EndsWith};
ghost use Rattle.fx_program_laws.specs.GivenDesigns.{EachRuled, HasGivenDesign};
ghost use Rattle.fx_program_laws.specs.PrintedRules.{HasRulesThatGiveTheLevels};
ghost use Rattle.fx_program_laws.specs.ReadBack.{IsBehindItsRules, IsGivenBack, IsReadBack};
ghost use Rattle.fx_tree.specs.Laws.{IsFirstOfLeastPattern};
ghost use Rattle.fx_answer.specs.StepClaims.{
  Allows,
  HasHighestInBlocks,
  HasHighestOfAll,
  HasLeastOfAll,
  HasLeastSize,
  HasMostBlocks,
  HasNoDesign,
  HasNoneAtAll,
  LeavesNoneOfLeastSize,
  MeetsWhatItReached,
  IsLastWithDesign,
  OfOutcome,
};
ghost use Rattle.fx_answer.specs.ValidSteps.{IsValidStep};
ghost use Rattle.fx_program.specs.Claims.{EachStep, HasMatrixAsAsked, IsGreatest, IsProved};

/// The outcome of a step with some factors, where the nodes of the questions that are asked for it are
/// within its budget, and what is given for it: status 0 with the files and the lines of the first design
/// of the canonical list, where least aberration is asked the first of least pattern, of the last question
/// that has one; or status 1 and the lines that say that there is no design, where no question has one.
pub fn first_design_is_given()
    ensures design { (seed number : ℕ) (earlier : List AskedView) (step : Meaning) (p : Problem) (rows : List ℕ)
        → 1 ≤ length step.factors
        → nodes_of (asked (questions_of step)) ≤ step.settings.budget
        → IsLastWithDesign (asked (questions_of step)) p
        → step.settings.least ≡ false
        → IsFirstDesign p rows
        → EndsWith seed number earlier step (record {
          dimensions = p.dimensions;
          ending = Design rows (nodes_of (asked (questions_of step)));
          reached = resolution_wanted p.requirement;
        }) }
    ensures least { (seed number : ℕ) (earlier : List AskedView) (step : Meaning) (p : Problem) (rows : List ℕ)
        → 1 ≤ length step.factors
        → nodes_of (asked (questions_of step)) ≤ step.settings.budget
        → IsLastWithDesign (asked (questions_of step)) p
        → step.settings.least ≡ true
        → IsFirstOfLeastPattern p rows
        → EndsWith seed number earlier step (record {
          dimensions = p.dimensions;
          ending = Design rows (nodes_of (asked (questions_of step)));
          reached = resolution_wanted p.requirement;
        }) }
    ensures none { (seed number : ℕ) (earlier : List AskedView) (step : Meaning) → 1 ≤ length step.factors
        → nodes_of (asked (questions_of step)) ≤ step.settings.budget
        → All HasNoDesign (asked (questions_of step))
        → EndsWith seed number earlier step (record {
          dimensions = (last_of (questions_of step).first (asked (questions_of step))).dimensions;
          ending = NoDesign (nodes_of (asked (questions_of step)));
          reached = 0;
        }) }
{}

/// Status 2 comes of a step exactly where the nodes of the questions that are asked for it are more
/// than its budget.
pub fn budget_ends_where_nodes_pass_it()
    ensures { (seed number : ℕ) (earlier : List AskedView) (step : Meaning)
        → ((step_output seed number earlier step).status ≡ 2)
        ↔ (step.settings.budget < nodes_of (asked (questions_of step))) }
{}

/// What status 1 says of a valid step: that the runs of no rule matrix at all, canonical or not, meet
/// what is required, in no dimensions that the step allows; and where the nodes of its questions are
/// within the budget, just then it comes.
pub fn no_design_means_none_at_all()
    ensures claimed { (seed number : ℕ) (earlier : List AskedView) (step : Meaning) → IsValidStep step
        → (step_output seed number earlier step).status ≡ 1
        → (d : Dimensions) → Allows step d → NoneMeets d step.requirement }
    ensures certain { (seed number : ℕ) (earlier : List AskedView) (step : Meaning) → IsValidStep step
        → nodes_of (asked (questions_of step)) ≤ step.settings.budget
        → ((d : Dimensions) → Allows step d → NoneMeets d step.requirement)
        → (step_output seed number earlier step).status ≡ 1 }
{}

/// Whatever a text says, each step of its program is valid.
pub fn valid_steps_in_any_text()
    ensures { (text : List ℕ) → EachStep IsValidStep (program_in text) }
{}

/// Whatever a text says: the matrix of which the listing and the plans of a step are made, its design or
/// what is left where the budget ended, has a row for each factor and block factor, in dimensions that the
/// step allows, and its runs meet what is required. Where the budget ended in the search for the least
/// size, there is none.
pub fn designs_meet_what_is_asked_in_any_text()
    ensures as_asked { (text : List ℕ) → EachStep HasMatrixAsAsked (program_in text) }
    ensures none_left { (text : List ℕ) → EachStep (OfOutcome LeavesNoneOfLeastSize) (program_in text) }
{}

/// Whatever a text says: the rules of each matrix that is printed give the level of each factor and block factor at
/// every run, and those that introduce run indexes have each combination of levels in equally many runs.
pub fn rules_give_the_levels_in_any_text()
    ensures { (text : List ℕ) → EachStep HasRulesThatGiveTheLevels (program_in text) }
{}

/// Whatever a text with rules says: the matrix of each of its steps has the shape for which the step asks,
/// and each of its rows, one for each factor and block factor, is the next unit vector or a combination of
/// the run indexes before. Its rules give the level of each factor and block factor at every run, and those
/// that introduce run indexes have each combination of levels in equally many runs.
pub fn given_designs_in_any_text()
    ensures { (text : List ℕ) → EachRuled HasGivenDesign (planned_in text) }
{}

/// Whatever a text says: what `run` lists of the rules of a step that leaves nothing to a search but its
/// rules is read, as the rules of this step, as the same matrix (`rules`), and so is what `plan` lists
/// (`given`). So `plan` gives the matrix of `run` where its rules are put before the text of the step (`plan`).
pub fn listed_rules_are_read_back()
    ensures rules { (text : List ℕ) → EachStep IsReadBack (program_in text) }
    ensures given { (text : List ℕ) → EachRuled IsGivenBack (planned_in text) }
    ensures plan { (text : List ℕ) (step : Meaning) (matrix : MatrixView) → IsBehindItsRules text step matrix
        → planned_in text ≡ Ok (record { step = step; matrix = matrix } ∷ []) }
{}

/// Whatever a text says: where a step of its program ends without a design, the runs of no rule matrix at
/// all meet what is required, in no dimensions that the step allows.
pub fn no_design_in_any_text()
    ensures { (text : List ℕ) → EachStep (OfOutcome HasNoneAtAll) (program_in text) }
{}

/// Whatever a text says: where a step of its program asks for least aberration and ends with a design,
/// the pattern of no rule matrix at all that meets the resolution asked for, canonical or not, is less.
pub fn least_pattern_in_any_text()
    ensures { (text : List ℕ) → EachStep (OfOutcome HasLeastOfAll) (program_in text) }
{}

/// Whatever a text says: where a step of its program asks for the highest resolution, without blocks, and
/// ends with a design, no rule matrix at all of as many runs, canonical or not, has a higher resolution.
pub fn highest_resolution_in_any_text()
    ensures { (text : List ℕ) → EachStep (OfOutcome HasHighestOfAll) (program_in text) }
{}

/// Whatever a text says: where a step of its program asks for the highest resolution in blocks, its matrix,
/// also one that is left where the budget ended, meets the resolution that is printed with its blocks
/// (`met`); and where it ends with a design, no rule matrix at all of as many runs and block factors,
/// canonical or not, meets a higher one, up to that of a design without defining words (`highest`).
pub fn highest_resolution_in_blocks_in_any_text()
    ensures met { (text : List ℕ) → EachStep (OfOutcome MeetsWhatItReached) (program_in text) }
    ensures highest { (text : List ℕ) → EachStep (OfOutcome HasHighestInBlocks) (program_in text) }
{}

/// Whatever a text says: where a step of its program asks for the least size and ends with a design, the
/// runs of no rule matrix at all of fewer runs meet what is required.
pub fn least_size_in_any_text()
    ensures { (text : List ℕ) → EachStep (OfOutcome HasLeastSize) (program_in text) }
{}

/// Whatever a text says: where a step of its program asks for the most blocks and ends with a design, the
/// runs of no rule matrix at all with more block factors meet what is required.
pub fn most_blocks_in_any_text()
    ensures { (text : List ℕ) → EachStep (OfOutcome HasMostBlocks) (program_in text) }
{}

/// What the status of a program says: 0 that each step has a design or that there is no step, 1 that
/// some step has none and no budget ended, 2 that the budget of some step ended.
pub fn greatest_status_decides()
    ensures { (seed : ℕ) (steps : List Meaning)
        → IsGreatest step_status (program_output seed (Ok steps)).status steps }
{}

/// Each claim has its book among the files of the step, whatever the status. Each finished question
/// without an answer, or for a least pattern, has one: the marks of its nodes, under the numbers of the
/// step and of the question. So there are the books of all questions that are asked, where the step ends
/// without a design; where it has one, the book of the next resolution for the highest, unless there are
/// no defining words, and for the highest in blocks, unless it is the highest there is; a book under
/// the pattern of the design for least aberration; the books of all smaller sizes for the least; and the
/// book of one more block factor for the most blocks.
pub fn claims_have_books()
    ensures finished { (seed number : ℕ) (earlier : List AskedView) (step : Meaning) → HasABookForEach seed number earlier step }
    ensures none { (seed number : ℕ) (earlier : List AskedView) (step : Meaning) → (step_output seed number earlier step).status ≡ 1
        → HasABookForEachAsked seed number earlier step }
    ensures highest { (seed number : ℕ) (earlier : List AskedView) (text : List ℕ)
        → EachStep (HighestHasBook seed number earlier) (program_in text) }
    ensures highest_in_blocks { (seed number : ℕ) (earlier : List AskedView) (text : List ℕ)
        → EachStep (HighestInBlocksHasBook seed number earlier) (program_in text) }
    ensures least_pattern { (seed number : ℕ) (earlier : List AskedView) (text : List ℕ)
        → EachStep (LeastPatternHasBook seed number earlier) (program_in text) }
    ensures least_size { (seed number : ℕ) (earlier : List AskedView) (text : List ℕ)
        → EachStep (LeastSizeHasBooks seed number earlier) (program_in text) }
    ensures most_blocks { (seed number : ℕ) (earlier : List AskedView) (text : List ℕ)
        → EachStep (MostBlocksHasBook seed number earlier) (program_in text) }
{}

/// Whatever a text says: each book of each step of its program is read from its file as it is, and
/// `check` accepts it, with status 0.
pub fn books_are_accepted_in_any_text()
    ensures { (text : List ℕ) → EachStep HasAcceptedBooks (program_in text) }
{}

/// Each book of a catalogue is read from its file as it is, and `check` accepts it, with status 0; it is
/// about the shape of its line at resolution 3, with the pattern of the line's design, if there is one.
pub fn catalogued_books_are_accepted()
    ensures { (q m most nodes : ℕ) → IsCatalogue q m most nodes
        → All (λ (e : Entry). HasAcceptedBook (shape_at q m e.factors) e.line) (entries q m most nodes) }
{}

/// Whatever a text says: where `check` of it ends with status 0, it is a book, and its claim holds: the
/// runs of no rule matrix at all, canonical or not, meet what its head asks, or, where the head has a
/// pattern, none of those that do has a less one; or, of a table, no design in blocks or split plots at all
/// has a less key. It does not matter who wrote it.
pub fn accepted_books_prove_their_claims()
    ensures { (text : List ℕ) (given : Output) → AreGiven (codes "check" ∷ []) text given
        → given.status ≡ 0
        → IsProved text }
{}

/// Where a table has a line without a design, which is its last, there is no design with as many
/// factors outside the base, or more.
pub fn none_past_the_last_line()
    ensures { (asked : AskedTable) (lines : List TableLine) (n : ℕ) → IsTrue (is_order asked.q)
        → IsTable asked lines
        → list_any is_nothing lines ≡ true
        → first_line asked + length lines ≤ n + 1
        → HasNone asked n }
{}

/// Whatever a text says: where it is a book, `upgrade` gives the text of that book in version 2 (`rewritten`).
/// Of what `upgrade` gives with status 0 `check` gives what it gives of the text, verdict, line and reason,
/// where it is within the limit of a book (`same`).
pub fn upgraded_books_have_the_same_verdict()
    ensures rewritten { (text : List ℕ) (book : Book) → book_of text ≡ Ok book
        → AreGiven (codes "upgrade" ∷ []) text (message (book_text book) 0) }
    ensures same { (text upgraded : List ℕ) (given : Output)
        → AreGiven (codes "upgrade" ∷ []) text (message upgraded 0)
        → length upgraded ≤ 268435456
        → AreGiven (codes "check" ∷ []) text given
        → AreGiven (codes "check" ∷ []) upgraded given }
{}

/// Each fault of a text has a row in the table of messages, so that its line names a reason, and a place
/// in the text, that of one of its bytes or of its end.
pub fn faults_have_a_message_and_a_place()
    ensures { (text : List ℕ) → IfErr (program_in text) (HasItsMessage text) }
{}

/// Each text of `make` is a program of as many steps as were asked for.
pub fn made_texts_are_programs()
    ensures { (n : ℕ) → n ≤ 100 → HasSteps n (program_in (made_text n)) }
{}

/// The files of a program have different names, without regard to case: those of its books, of its plans
/// and of its fold-overs, whether its designs are searched for (`run`) or of rules (`planned`).
pub fn file_names_differ()
    ensures run { (seed : ℕ) (text : List ℕ)
        → IsDistinct is_same_name (names_among (program_output seed (program_in text)).events) }
    ensures planned { (seed : ℕ) (text : List ℕ)
        → IsDistinct is_same_name (names_among (planned_output seed (planned_in text)).events) }
{}

/// The number of threads changes nothing: whatever the text, the output of a command is that of the
/// same command with another number.
pub fn threads_change_nothing()
    ensures run { (threads other seed : ℕ) (text : List ℕ) (given : Output)
        → (command_of (Run threads seed)).gives text given → (command_of (Run other seed)).gives text given }
    ensures large { (n threads other : ℕ) (text : List ℕ) (given : Output)
        → (command_of (Large n threads)).gives text given → (command_of (Large n other)).gives text given }
    ensures catalogue { (q m most threads other nodes : ℕ) (text : List ℕ) (given : Output)
        → (command_of (Catalogue q m most threads nodes)).gives text given
        → (command_of (Catalogue q m most other nodes)).gives text given }
{}
