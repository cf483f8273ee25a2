//! The targets that a script starts with, and their page.

ghost use Rattle.std.specs.Prelude.{◌≡◌, IfOk};
ghost use Rattle.host_scripts.specs.Scripts.{IsScript};
ghost use Rattle.array_calls.specs.FirstBus.{first_page, first_targets};

use blocks_core::Memory;
use host_scripts::Script;
use sector_media::MemoryMedium;
use std::alloc::Global;
use xor_mode_page::XorPage;
use xor_target::Target;

/// The page of each target: the script's maxima, no delay, and the XOR commands are served.
pub fn first_page(script: &Script) -> XorPage
    ensures { result ≡ first_page script.now }
{
    XorPage {
        xordis: false,
        max_write: script.maxima[0],
        max_regenerate: script.maxima[1],
        max_rebuild: script.maxima[2],
        delay: 0,
    }
}

/// The targets of an array to which nothing happened, over media in memory.
pub fn first_targets(alloc: Global, script: &Script) -> Result<Vec<Target<MemoryMedium>>, Memory>
    requires { IsScript script.now }
    ensures { IfOk result (λ targets. targets.items ≡ first_targets script.now) }
{
    let geometry = &script.geometry;
    let mut targets = Vec::new(alloc);
    for number in 0..geometry.targets {
        let medium = MemoryMedium::new(alloc, geometry.block, geometry.rows())?;
        targets.push(Target::new(
            alloc,
            number,
            geometry.targets,
            geometry.block,
            script.buffer,
            first_page(script),
            medium,
        )?)?;
    }
    Ok(targets)
}
