ghost use Rattle.std.specs.Prelude.{◌≡◌, ◌<◌, ◌≤◌, ◌+◌, [], true, false, length, take, IfOk, OnOk};
ghost use Rattle.std.specs.Option.{option_copied};
ghost use Rattle.fx_designs.specs.Jobs.{best_before};
ghost use Rattle.fx_designs.specs.Nodes.{parent};
ghost use Rattle.fx_tree.specs.Laws.{IsJob};
ghost use Rattle.fx_tree.specs.Ranked.{is_counted};
ghost use Rattle.fx_tree.specs.Search.{ranked, IsBestAt};
ghost use Rattle.fx_vectors.specs.Question.{problem_of};
ghost use Rattle.fx_search.specs.Ends.{IsOver};
ghost use Rattle.fx_search.specs.JobEnds.{IsJobEnd, IsSized};
ghost use Rattle.fx_search.specs.SearchPieces.{IsPiece, IsPieceEnd, piece_candidates};
ghost use Rattle.fx_search.specs.Walks.{IsAt, IsReadyAfter, IsComplete, standing_with_best, standing_without_best};
ghost use Rattle.fx_search.specs.Standing.{FitsDimensions, HasDimensions, kept_rows, best_rows};

use crate::best::Best;
use crate::cutter::Cutter;
use crate::incumbent::Incumbent;
use crate::job::{JobEnd, own, remember};
use crate::ranked::Ranked;
use crate::unranked::Unranked;
use crate::walk::{End, Walk};
use fx_base::NoMemory;
use fx_vectors::{Marks, Matrix};

impl<'a> Walk<'a, Ranked> {
    /// A whole matrix as a best that jobs can begin with. The walk is at the empty prefix.
    pub(crate) fn kept(&mut self, best: Option<&Matrix>) -> Option<Best>
        requires at { IsAt standing_with_best self.old.question.now self.old }
        requires least { self.old.question.now.least ≡ true }
        requires start { self.old.prefix.rows ≡ [] }
        requires shape { HasDimensions (problem_of self.old.question.now).dimensions (option_copied best) }
        requires whole { IsComplete (problem_of self.old.question.now) (option_copied best) }
        ensures rows { kept_rows result ≡ best_rows (option_copied best.entry) }
        ensures sized { FitsDimensions (problem_of self.old.question.now).dimensions result }
        ensures question { self.new.question ≡ self.old.question }
        ensures at { IsAt standing_with_best self.old.question.now self.new }
    {
        match best {
            None => self.incumbent.begin(None),
            Some(best) => remember(&mut self.incumbent, best, 0),
        }
        self.incumbent.best()
    }
}

impl<'a> Walk<'a, Unranked<'a>> {
    /// Works off a piece, within a limit of at most 5,000,000 nodes. After `Closed` it can work off another. At
    /// every end, also after an error, the cutter is one that it may become.
    ///
    /// # Errors
    ///
    /// `NoMemory`.
    pub fn run_piece<C: Cutter>(
        &mut self,
        piece: &Matrix,
        limit: u64,
        cutter: &mut C,
    ) -> Result<JobEnd, NoMemory>
        requires at { IsAt standing_without_best self.old.question.now self.old }
        requires plain { self.old.question.now.least ≡ false }
        requires piece { IsPiece self.old.question.now piece.now }
        requires limit { limit ≤ 5000000 }
        ensures cutter { C.may_become cutter.old cutter.new }
        ensures question { self.new.question ≡ self.old.question }
        ensures ready { IfOk result (λ end.
            IsReadyAfter end (IsAt standing_without_best self.old.question.now self.new)) }
        ensures end { IfOk result (IsPieceEnd self.old.question.now piece.now.rows limit (C.stopped cutter.new)) }
    {
        let end = self.walk_part(piece, limit, cutter)?;
        let marks = self.take_marks();
        let nodes = marks.len() as u64;
        match end {
            End::Found => Ok(JobEnd::Found {
                matrix: self.take_prefix(),
                nodes,
                marks,
            }),
            End::Closed => Ok(JobEnd::Closed {
                best: None,
                nodes,
                marks,
            }),
            End::Spent => Ok(JobEnd::Spent { nodes: limit + 1 }),
            End::Cut => Ok(JobEnd::Cut),
        }
    }
}

impl<'a, I: Incumbent> Walk<'a, I> {
    /// Works off a job, a canonical prefix of m + 2 rows whose lot is a branch. `earlier` is the first matrix of
    /// least pattern of the lots before that one, where a least pattern is asked and there is one. The nodes are
    /// those inside the job, and `limit` is at most 5,000,000. After `Closed` it can work off another. At every
    /// end, also after an error, the cutter is one that it may become.
    ///
    /// # Errors
    ///
    /// `NoMemory`.
    pub fn run_job<C: Cutter>(
        &mut self,
        job: &Matrix,
        earlier: Option<Best>,
        limit: u64,
        cutter: &mut C,
    ) -> Result<JobEnd, NoMemory>
        requires at { IsAt I.standing self.old.question.now self.old }
        requires shape { job.now.shape ≡ self.old.question.now.shape }
        requires job { IsJob (problem_of self.old.question.now) job.now.rows }
        requires earlier { self.old.question.now.least ≡ true
            → kept_rows earlier ≡ best_before (problem_of self.old.question.now) job.now.rows }
        requires sized { FitsDimensions (problem_of self.old.question.now).dimensions earlier }
        requires limit { limit ≤ 5000000 }
        ensures cutter { C.may_become cutter.old cutter.new }
        ensures question { self.new.question ≡ self.old.question }
        ensures sized { IfOk result (IsSized self.old.question.now) }
        ensures end { IfOk result (IsJobEnd self.old.question.now job.now.rows limit (C.stopped cutter.new)) }
        ensures ready { IfOk result (λ end. IsReadyAfter end (IsAt I.standing self.old.question.now self.new)) }
    {
        // The jobs of a lot know nothing of each other.
        self.incumbent.begin(earlier);
        let end = self.walk_part(job, limit, cutter)?;
        let marks = self.take_marks();
        let nodes = marks.len() as u64;
        match end {
            End::Found => Ok(JobEnd::Found {
                matrix: self.take_prefix(),
                nodes,
                marks,
            }),
            End::Closed => Ok(JobEnd::Closed {
                best: own(self.question, job, self.incumbent.best_matrix()),
                nodes,
                marks,
            }),
            End::Spent => Ok(JobEnd::Spent { nodes: limit + 1 }),
            End::Cut => Ok(JobEnd::Cut),
        }
    }

    /// Walks a prefix with all that is below it, with new marks.
    fn walk_part<C: Cutter>(
        &mut self,
        part: &Matrix,
        limit: u64,
        cutter: &mut C,
    ) -> Result<End, NoMemory>
        requires at { IsAt I.standing self.old.question.now self.old }
        requires part { IsPiece self.old.question.now part.now }
        requires best { let p = problem_of self.old.question.now in
            IsBestAt p (is_counted (ranked p) part.now.rows) (I.standing self.old.incumbent).best }
        requires inside { self.old.question.now.least ≡ true
            → self.old.question.now.shape.m + 1 < length part.now.rows }
        requires limit { limit ≤ 5000000 }
        ensures cutter { C.may_become cutter.old cutter.new }
        ensures question { self.new.question ≡ self.old.question }
        ensures ended { let p = problem_of self.old.question.now in
            IfOk result (IsOver I.standing self.old.question.now (parent part.now.rows) part.now.rows
            (piece_candidates p part.now.rows) limit (C.stopped cutter.new) [] self.new) }
    {
        self.go_to_parent(part)?;
        self.marks = Marks::new(self.alloc);
        let row = part.row(part.len() - 1);
        self.limit = limit as usize;
        let front = self.front();
        self.walk_child(front, row, cutter)
    }

    /// Goes to a piece without its last row.
    fn go_to_parent(&mut self, piece: &Matrix) -> Result<(), NoMemory>
        requires at { IsAt I.standing self.old.question.now self.old }
        requires piece { IsPiece self.old.question.now piece.now }
        ensures question { self.new.question ≡ self.old.question }
        ensures at { OnOk result (IsAt I.standing self.old.question.now self.new) }
        ensures rows { OnOk result (self.new.prefix.rows ≡ parent piece.now.rows) }
        ensures best { OnOk result ((I.standing self.new.incumbent).best ≡ (I.standing self.old.incumbent).best) }
    {
        let count = piece.len() - 1;
        let same = self.common(piece, count);
        while self.prefix.len() > same {
            self.leave();
        }
        for i in same..count {
            self.push(piece.row(i))?;
        }
        Ok(())
    }

    /// How many of the first `count` rows of a matrix it begins with.
    fn common(&self, other: &Matrix, count: usize) -> usize
        requires { count ≤ length other.now.rows }
        ensures own { result ≤ length self.now.prefix.rows }
        ensures other { result ≤ count }
        ensures same { take result self.now.prefix.rows ≡ take result other.now.rows }
    {
        let most = self.prefix.len().min(count);
        for i in 0..most {
            if self.prefix.row(i) != other.row(i) {
                return i;
            }
        }
        most
    }
}
