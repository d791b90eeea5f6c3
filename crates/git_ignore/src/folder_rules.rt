//! The rules of an ignore file among several.

ghost use Rattle.std.specs.Prelude.{◌≡◌, IfOk};
ghost use Rattle.git_ignore.specs.Folders.{file_rule};
ghost use Rattle.git_ignore.specs.RulesValue.{FitsAsBefore, FitsRules};
ghost use Rattle.git_ignore.specs.inner.PathRules.{IsPathRule};
ghost use Rattle.git_ignore.specs.inner.Stacks.{file_of};

use crate::decision::DecidingRule;
use crate::path_rule::PathRule;
use crate::rules::Rules;
use crate::scratch::IgnoreScratch;
use crate::stored::RowMemory;
use crate::two_rules::DecidesAlone;
use std::alloc::{AllocError, Global};

/// The rules of an ignore file, and the folder of the file.
#[derive(Drop)]
pub struct FolderRules {
    /// The path of the folder: empty for the top folder, and otherwise with `/` at its end.
    folder: Vec<u8>,
    pub rules: Rules,
}

impl FolderRules {
    /// Reads an ignore file of a folder, and makes the scratch fit its rules. Calls keep rows of at most `dfa_size_limit` bytes.
    pub fn new(
        alloc: Global,
        folder: &[u8],
        file: &[u8],
        ignore_case: bool,
        dfa_size_limit: usize,
        scratch: &mut IgnoreScratch,
    ) -> Result<FolderRules, AllocError>
        ensures file { IfOk result
            (λ r. file_of r
            ≡ record { folder = folder.now; bytes = file.now; ignore_case = ignore_case }) }
        ensures fits { IfOk result (λ r. FitsRules scratch.new r.rules) }
        ensures others { FitsAsBefore scratch.old scratch.new }
    {
        let rules = Rules::read(alloc, file, ignore_case, RowMemory::by_need(dfa_size_limit))?;
        let folder = folder.to_vec(alloc)?;
        scratch.reserve(&rules)?;
        Ok(FolderRules { folder, rules })
    }

    /// Returns the rule of the file that decides about a path alone, and what is known of the folders above it. The file has this
    /// index, and the path begins in the top folder.
    fn path_rule(
        &self,
        index: usize,
        path: &[u8],
        is_folder: bool,
        scratch: &mut IgnoreScratch,
    ) -> PathRule
        requires { FitsRules scratch.old self.now.rules }
        ensures rule { IsPathRule (λ path is_folder. file_rule index path is_folder (file_of self.now))
            path.now is_folder result }
        ensures scratch { scratch.new ≡ scratch.old }
    {
        match path.strip_prefix(self.folder.as_slice()) {
            Some(below) => self.rules.stored.path_rule(
                index,
                below,
                is_folder,
                &mut scratch.memory,
                &mut scratch.found,
            ),
            None => PathRule::none(),
        }
    }
}

impl DecidesAlone for Vec<FolderRules> {
    ghost use Rattle.git_ignore.specs.Folders.{files_rule};
    ghost use Rattle.git_ignore.specs.inner.Stacks.{FitAll, files_of};

    ghost fits = { λ scratch files. FitAll scratch files.items };

    ghost alone = { λ files. files_rule (files_of files.items) };

    fn rule_alone(
        &self,
        path: &[u8],
        is_folder: bool,
        scratch: &mut IgnoreScratch,
    ) -> Option<DecidingRule> {
        let mut count = self.len();
        while count > 0 {
            count -= 1;
            let rule = self[count].path_rule(count, path, is_folder, scratch).rule;
            if rule.is_some() {
                return rule;
            }
        }
        None
    }

    fn path_rule(&self, path: &[u8], is_folder: bool, scratch: &mut IgnoreScratch) -> PathRule {
        let mut told = PathRule::none();
        for (index, file) in self.iter().enumerate() {
            told = told.joined(file.path_rule(index, path, is_folder, scratch));
        }
        told
    }
}
