//! The findings of declarations.
ghost use Rattle.std.specs.Prelude.{◌≡◌, ◌++◌, OnOk, map};
ghost use Rattle.pap_tree.specs.Declarations.{declaration_of};
ghost use Rattle.flowchart_findings.specs.Findings.{is_unread, is_unassigned, declaration_finding, declaration_findings};
ghost use Rattle.flowchart_findings.specs.private.SetViews.{read_by, assigned_by};

use crate::finding::{DeclarationSite, Finding, Group};
use crate::name_sets::NameSets;
use pap_tree::Declared;
use std::alloc::AllocError;

impl NameSets {
    /// Appends the findings of the declarations of a group.
    #[tactic(auto, using(crate::proofs::FindingLemmas::one_declaration))]
    pub fn add_declarations(
        &self,
        out: &mut Vec<Finding>,
        group: Group,
        declared: &[Declared],
    ) -> Result<(), AllocError>
        ensures { OnOk result (out.new.items ≡ out.old.items
            ++ declaration_findings (read_by self.now) (assigned_by self.now)
            group 0 (map declaration_of declared.now)) }
    {
        for (number, declaration) in declared.iter().enumerate() {
            let name = declaration.name;
            let site = DeclarationSite {
                group,
                number,
                name,
            };
            self.add_declaration(out, &site)?;
        }
        Ok(())
    }

    /// Appends the finding of a declaration, if it has one.
    fn add_declaration(
        &self,
        out: &mut Vec<Finding>,
        site: &DeclarationSite,
    ) -> Result<(), AllocError>
        ensures { OnOk result (out.new.items ≡ out.old.items
            ++ declaration_finding (read_by self.now) (assigned_by self.now)
            site.now) }
    {
        let found = *site;
        if self.is_unread(site) {
            out.push(Finding::Unread(found))?;
        } else if self.is_unassigned(site) {
            out.push(Finding::Unassigned(found))?;
        }
        Ok(())
    }

    /// Whether no expression names a declaration that serves only there: an output is also written out.
    fn is_unread(&self, site: &DeclarationSite) -> bool
        ensures { result ≡ is_unread (read_by self.now) site.now }
    {
        match site.group {
            Group::Input | Group::Internal | Group::Constant => !self.is_read(&site.name),
            Group::Output => false,
        }
    }

    /// Whether no EVAL assigns a declaration that is there to be assigned.
    fn is_unassigned(&self, site: &DeclarationSite) -> bool
        ensures { result ≡ is_unassigned (assigned_by self.now) site.now }
    {
        match site.group {
            Group::Output | Group::Internal => !self.is_assigned(&site.name),
            Group::Input | Group::Constant => false,
        }
    }
}
