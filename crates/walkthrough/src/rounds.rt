// One round: a design is kept, fetched without some boards, and fetched with a damaged fragment.
use crate::choices::{Away, present, rows_for};
use crate::fetching::fetch;
use crate::keeping::Kept;
use crate::kinds::{FieldKind, HashKind};
use crate::shown::first;
use crate::telling::{tell_fetch, tell_fragment, tell_fragments, tell_sizes};
use field::Field;
use field256::Field256;
use field257::Field257;
use hash::{Fold, Hash, Sha256};
use shape::Shape;
use std::{fmt, io};

/// What a round does.
#[derive(Clone, Copy)]
pub(crate) struct Round {
    /// t, how many boards may be missing or broken.
    pub(crate) faults: u8,
    pub(crate) field: FieldKind,
    pub(crate) hash: HashKind,
    pub(crate) away: Away,
    /// The board whose fragment is damaged.
    pub(crate) damaged: u16,
    /// How many bytes of a digest are shown.
    pub(crate) shown: usize,
}

impl fmt::Display for Round {
    fn fmt<W: fmt::Write>(&self, f: &mut fmt::Formatter<W>) -> fmt::Result {
        write!(
            f,
            "t = {}, field {}, hash {}",
            self.faults, self.field, self.hash
        )
    }
}

impl Round {
    /// Tells the round, and says whether the design came back each time.
    pub(crate) fn tell(&self, rt: &HostRuntime, design: &[u8]) -> io::Result<bool> {
        match self.field {
            FieldKind::Field256 => self.tell_over::<Field256>(rt, design),
            FieldKind::Field257 => self.tell_over::<Field257>(rt, design),
        }
    }

    /// Tells the round over a field.
    fn tell_over<F: Field>(&self, rt: &HostRuntime, design: &[u8]) -> io::Result<bool> {
        match self.hash {
            HashKind::Sha256 => self.tell_by::<F, Sha256>(rt, design),
            HashKind::Fold => self.tell_by::<F, Fold>(rt, design),
        }
    }

    /// Tells the round over a field and by a hash.
    fn tell_by<F: Field, D: Hash>(&self, rt: &HostRuntime, design: &[u8]) -> io::Result<bool> {
        let faults = usize::from(self.faults);
        let rows = rows_for(design.len(), faults + 1);
        let Some(shape) = Shape::new(faults, rows) else {
            println!(rt;
                "    refused     a block has at most 512 rows, and the design needs {rows}"
            )?;
            return Ok(false);
        };
        let kept = Kept::<F, D>::new(rt.alloc(), shape, design)?;
        tell_sizes::<F>(rt, shape, design.len())?;
        tell_fragments(rt, self.shown, &kept)?;
        let fetched = self.tell_absence(rt, &kept, design)?;
        let repaired = self.tell_repair(rt, kept, design)?;
        Ok(fetched && repaired)
    }

    /// Fetches the design while t boards are away, and says whether it came back.
    fn tell_absence<F: Field, D: Hash>(
        &self,
        rt: &HostRuntime,
        kept: &Kept<F, D>,
        design: &[u8],
    ) -> io::Result<bool> {
        let boards = present(rt.alloc(), self.away, kept.shape)?;
        let fetched = fetch(rt.alloc(), kept, boards, design.len())?;
        tell_fetch(rt, "    taken away ", &fetched, design)
    }

    /// Damages a fragment, fetches the design from boards whose fragments are good, and says whether it came back.
    fn tell_repair<F: Field, D: Hash>(
        &self,
        rt: &HostRuntime,
        mut kept: Kept<F, D>,
        design: &[u8],
    ) -> io::Result<bool> {
        kept.damage(self.damaged);
        let digest = kept.digest(self.damaged);
        tell_fragment(
            rt,
            "    damaged ",
            self.damaged,
            kept.fragment(self.damaged),
            first(&digest, self.shown),
        )?;
        let boards = kept.examine(rt.alloc())?;
        let fetched = fetch(rt.alloc(), &kept, boards, design.len())?;
        tell_fetch(rt, "    left out   ", &fetched, design)
    }
}
