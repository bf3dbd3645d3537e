//! The whole certificate, in the order of refusals.

ghost use Rattle.std.specs.Prelude.{◌≡◌, ◌↔◌, IfErr, IfOk, IsOk, length};
ghost use Rattle.kc_cert.specs.Certified.{IsCertified};
ghost use Rattle.kc_cert.specs.Form.{HasForm};
ghost use Rattle.kc_cert.specs.FirstRefusal.{IsFirstRefusal, context_refusal, each_from, refusal_from_start};

use crate::context::check_context;
use crate::form::has_form;
use crate::refused::{at_table, demand};
use crate::table::Table;
use crate::user::check_user;
use kc_cert::{Certificate, Counts, Digests, Refusal};
use kc_image::Image;
use kc_placed::is_start_covered;
use kc_regions::Config;
use kc_state::{Condition, Scratch};

fn check_contexts(table: &Table, out: &mut Scratch) -> Result<(), Refusal>
    ensures { result ≡ each_from (context_refusal table.now.image.now table.now.cfg.now table.now.cert.now) 0
        table.now.cert.now.contexts }
{
    let contexts = table.cert.contexts.as_slice();
    for i in 0..contexts.len() {
        check_context(table, i as u32, &contexts[i], out)?;
    }
    Ok(())
}

// C3 to C17 of a certificate in its form.
fn check_from_start(
    image: &Image,
    cfg: &Config,
    cert: &Certificate,
    scratch: &mut Scratch,
) -> Result<(), Refusal>
    requires form { HasForm cfg.now cert.now }
    ensures { result ≡ refusal_from_start image.now cfg.now cert.now }
{
    demand(
        is_start_covered(cfg, &cert.user),
        at_table(Condition::START_COVERED),
    )?;
    let table = Table::new(image, cfg, cert);
    check_user(&table, scratch)?;
    check_contexts(&table, scratch)
}

/// Whether the certificate meets C1 to C17 for this image and description, whose files have these digests: how many
/// contexts and nodes it has, or the first refusal. It takes no memory.
pub fn check(
    image: &Image,
    cfg: &Config,
    digests: &Digests,
    cert: &Certificate,
    scratch: &mut Scratch,
) -> Result<Counts, Refusal>
    ensures certified { IsOk result ↔ IsCertified image.now cfg.now digests.now cert.now }
    ensures counts { IfOk result (λ counts. (counts.contexts ≡ length cert.now.contexts)
        × (counts.nodes ≡ length cert.now.nodes)) }
    ensures refused { IfErr result (IsFirstRefusal image.now cfg.now digests.now cert.now) }
{
    demand(cert.digests == *digests, at_table(Condition::DIGESTS))?;
    demand(has_form(cfg, cert), at_table(Condition::TABLE_FORM))?;
    check_from_start(image, cfg, cert, scratch)?;
    Ok(Counts {
        contexts: cert.contexts.len() as u32,
        nodes: cert.nodes.len() as u32,
    })
}
