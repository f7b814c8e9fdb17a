ghost use Rattle.std.specs.Prelude.{◌≡◌, IfOk, OnOk, Bool, ◌||◌};
ghost use Rattle.std.specs.List.{list_any};
ghost use Rattle.check_model.specs.Sites.{Site as Seen, some_site};
ghost use Rattle.site_walk.specs.Seen.{seen};

use crate::scope::Scope;
use crate::site::{Site, Visitor};
use text_types::Memory;

/// What a rule asks of each site by itself.
pub trait SiteTest {
    ghost test: { Self → Seen → Bool };

    fn holds(&self, site: Site<'_>) -> Result<bool, Memory>
        ensures { IfOk result (λ b. b ≡ test self.now (seen site.entry)) };
}

/// Whether some site so far passed a test.
#[derive(Drop)]
struct Search<'a, T> {
    test: &'a T,
    found: bool,
}

impl<'a, T: SiteTest> Visitor for Search<'a, T> {
    ghost step = { λ s site. record s { found = s.found || T.test s.test.now site } };

    fn visit(&mut self, site: Site<'_>) -> Result<(), Memory> {
        if !self.found {
            self.found = self.test.holds(site)?;
        }
        Ok(())
    }
}

impl<'a> Scope<'a> {
    /// Whether something in the document passes a test.
    pub fn some_site<T: SiteTest>(&self, test: &T) -> Result<bool, Memory>
        ensures { IfOk result (λ b. b ≡ some_site (T.test test.now) self.now.schema.now self.now.document.now) }
    {
        let mut search = Search { test, found: false };
        self.visit(&mut search)?;
        Ok(search.found)
    }
}
