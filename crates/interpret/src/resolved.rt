//! What stands at an instruction pointer: its module, and the symbol there.
ghost use Rattle.std.specs.Prelude.{◌≡◌, min};
ghost use Rattle.interpret.specs.FrameKept.{resolved_kept};
ghost use Rattle.interpret.specs.Resolved.{frame_count, resolved};

use crate::modules::ModuleList;
use crate::symbol_frame::next_frame;
use crate::symbols::Symbols;
use stack_table::MOST_FRAMES;

/// An instruction pointer, the name of its module, and the texts of its symbol, where they are known.
#[derive(Clone, Copy)]
pub struct ResolvedIp<'a> {
    pub ip: u64,
    pub module_name: Option<&'a [u8]>,
    pub texts: Option<&'a [u8]>,
}

/// What stands at an instruction pointer while these modules are loaded. It takes no memory.
#[tactic(auto, unfolding(crate::specs::Resolved::resolved))]
pub fn resolve<'a>(symbols: &'a Symbols, modules: &'a ModuleList, ip: u64) -> ResolvedIp<'a>
    ensures found { resolved_kept result ≡ resolved symbols.now modules.now ip }
    ensures ip { result.ip ≡ ip }
{
    let Some(found) = modules.last_holding(ip) else {
        return ResolvedIp {
            ip,
            module_name: None,
            texts: None,
        };
    };
    let name = found.name.bytes();
    let texts = match ip.checked_sub(found.start) {
        Some(offset) => symbols.texts_at(name, offset),
        None => None,
    };
    ResolvedIp {
        ip,
        module_name: Some(name),
        texts,
    }
}

impl ResolvedIp<'_> {
    /// How many frames its instruction line says: one that names nothing where no symbol is known. No more than 4,097 are
    /// counted, which are more than a stack may have.
    pub fn frame_count(&self) -> u32
        ensures { result ≡ min 4097 (frame_count (resolved_kept self.now)) }
    {
        let mut count = 0;
        let mut rest = self.texts;
        'frames: while let Some(texts) = rest {
            if count > MOST_FRAMES {
                return count;
            }
            let (_, after) = next_frame(texts);
            count += 1;
            rest = after;
        }
        count.max(1)
    }
}
