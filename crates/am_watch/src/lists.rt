//! Lists of watchers, one for each literal.

ghost use Rattle.std.specs.Prelude.{◌≡◌, ◌*◌, ◌<◌, ℕ, [], length, replicate, slice_index_or, slice_set, IfOk, OnOk};
ghost use Rattle.std.specs.Prelude.{OnErr};
ghost use Rattle.am_watch.specs.Lists.{list_at};
ghost use Rattle.am_watch.specs.inside.Rows.{IsLonger, IsShorter};
ghost use Rattle.am_watch.specs.declared.watcher.Watcher.{Watcher};

use crate::watcher::Watcher;
use am_lit::Lit;
use std::alloc::{AllocError, Global};
use std::marker::Model;

/// The watchers of each literal.
#[derive(Drop)]
pub struct Lists {
    alloc: Global,
    rows: Vec<Vec<Watcher>>,
}

impl Model for Lists {
    ghost use Rattle.std.specs.Prelude.{List, map};
    ghost use Rattle.am_watch.specs.declared.watcher.Watcher.{Watcher};

    ghost Value = { List (List Watcher) };

    ghost view = { λ a. map (λ r. r.items) a.rows.items };
}

impl Lists {
    /// Empty lists for the literals of these many variables.
    pub fn new(alloc: Global, vars: u32) -> Result<Lists, AllocError>
        ensures len { IfOk result (λ a. length a ≡ 2 * vars) }
        ensures empty { IfOk result (λ a. (l : ℕ) → list_at a l ≡ []) }
    {
        let mut rows = Vec::new(alloc);
        for _ in 0..2 * vars as usize {
            rows.push(Vec::new(alloc))?;
        }
        Ok(Lists { alloc, rows })
    }

    pub fn len(&self, l: Lit) -> usize
        requires { l < length self.now }
        ensures { result ≡ length (list_at self.now l) }
    {
        self.rows[l.code() as usize].len()
    }

    pub fn get(&self, l: Lit, j: usize) -> Watcher
        requires l { l < length self.now }
        requires j { j < length (list_at self.now l) }
        ensures { (d : Watcher) → result ≡ slice_index_or (list_at self.now l) j d }
    {
        let row = self.rows[l.code() as usize].as_slice();
        row[j]
    }

    pub fn push(&mut self, l: Lit, watcher: Watcher) -> Result<(), AllocError>
        requires { l < length self.old }
        ensures { OnOk result (IsLonger l watcher self.old self.new) }
    {
        let row = &mut self.rows[l.code() as usize];
        row.push(watcher)?;
        Ok(())
    }

    pub fn set(&mut self, l: Lit, j: usize, watcher: Watcher)
        requires l { l < length self.old }
        requires j { j < length (list_at self.old l) }
        ensures { self.new ≡ slice_set self.old l (slice_set (list_at self.old l) j watcher) }
    {
        let row = &mut self.rows[l.code() as usize];
        row[j] = watcher;
    }

    pub fn remove(&mut self, l: Lit, j: usize)
        requires l { l < length self.old }
        requires j { j < length (list_at self.old l) }
        ensures { IsShorter l j self.old self.new }
    {
        let row = &mut self.rows[l.code() as usize];
        let _ = row.swap_remove(j);
    }
}
