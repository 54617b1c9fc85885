//! The pictures of a group that is to be encoded.

ghost use Rattle.std.specs.Prelude.{◌≡◌, ◌<◌, ◌≤◌, [], length, IfOk, OnOk, OnErr, slice_get, Some};
ghost use Rattle.hv_types.specs.Configuration.{picture_bytes};
ghost use Rattle.hv_types.specs.Video.{picture_of, pad, IsPadded};

use crate::answers::NoMemory;
use crate::picture::Picture;
use crate::plane::{Plane, Sides};
use crate::settings::Config;
use std::alloc::Global;
use std::marker::Model;

/// The pictures of a group in output order, padded: each side of luma to the next multiple of 8,
/// and those of Cb and Cr to half of it. Contracts see the settings and the list of the pictures.
#[derive(Drop)]
pub struct GroupInput {
    config: Config,
    pictures: Vec<Picture>,
}

impl Model for GroupInput {
    ghost use Rattle.hv_types.specs.GroupInput.{GroupInput, IsGroup};

    ghost Value = { GroupInput };

    ghost view = { λ g. record { config = g.config; pictures = g.pictures.items } };

    ghost invariant = { λ g. IsGroup record { config = g.config; pictures = g.pictures.items } };
}

impl GroupInput {
    ghost use Rattle.hv_types.specs.GroupInput.{with_picture};

    /// A group of no pictures yet. The only error is want of memory.
    pub fn new(alloc: Global, config: Config) -> Result<Self, NoMemory>
        ensures { IfOk result (λ group. group ≡ record { config = config; pictures = [] }) }
    {
        let pictures = Vec::with_capacity(alloc, usize::from(config.settings().group))?;
        Ok(GroupInput { config, pictures })
    }

    /// Appends a picture, padded, where fewer are there than a group may have. `raw` has the bytes
    /// of one picture without padding: a byte for each luma sample by rows, then those of Cb, then
    /// those of Cr. The only error is want of memory, and then the group is as it was.
    pub fn push(&mut self, raw: &[u8]) -> Result<(), NoMemory>
        requires bytes { length raw.now ≡ picture_bytes self.old.config }
        requires room { length self.old.pictures < self.old.config.group }
        ensures ok { OnOk result (self.new ≡ with_picture self.old raw.now) }
        ensures err { OnErr result (self.new ≡ self.old) }
    {
        let alloc = *self.pictures.allocator();
        let picture = padded_picture(alloc, &self.config, raw)?;
        self.pictures.push(picture)?;
        Ok(())
    }

    /// The number of pictures.
    pub fn count(&self) -> u8
        ensures value { result ≡ length self.now.pictures }
        ensures group_most { result ≤ self.now.config.group }
        ensures most { result ≤ 64 }
    {
        self.pictures.len() as u8
    }

    /// Picture `k`, which is there, padded. The first in output order is 0.
    pub fn picture(&self, k: u8) -> &Picture
        requires { k < length self.now.pictures }
        ensures value { slice_get self.now.pictures k ≡ Some result.now }
        ensures padded { IsPadded self.now.config result.now }
    {
        &self.pictures[usize::from(k)]
    }

    /// The settings that the group was made with.
    pub fn config(&self) -> Config
        ensures { result ≡ self.now.config }
    {
        self.config
    }
}

/// The picture of these bytes, padded.
fn padded_picture(alloc: Global, config: &Config, raw: &[u8]) -> Result<Picture, NoMemory>
    requires { length raw.now ≡ picture_bytes config.now }
    ensures value { IfOk result (λ picture. picture ≡
        pad (picture_of config.now.width config.now.height raw.now)) }
    ensures padded { IfOk result (IsPadded config.now) }
{
    let settings = config.settings();
    let luma = Sides {
        width: settings.width,
        height: settings.height,
    };
    let padded_luma = Sides {
        width: config.padded_width(),
        height: config.padded_height(),
    };
    let chroma = luma.halved();
    let padded_chroma = padded_luma.halved();
    let cb = luma.samples();
    let cr = cb + chroma.samples();
    Ok(Picture {
        luma: Plane::padded(alloc, &raw[..cb], luma, padded_luma)?,
        cb: Plane::padded(alloc, &raw[cb..cr], chroma, padded_chroma)?,
        cr: Plane::padded(alloc, &raw[cr..], chroma, padded_chroma)?,
    })
}

#[cfg(test)]
mod tests {
    use super::*;
    use crate::settings::{Emit, Settings};
    use std::test::Fail;

    /// Ten columns and ten rows are padded to sixteen and sixteen, with eight and eight in chroma.
    /// Luma is 0 to 99, Cb 100 to 124 and Cr 150 to 174.
    #[test]
    fn ten_by_ten(rt: HostRuntime) -> Result<(), Fail> {
        let config = Config::checked(Settings {
            width: 10,
            height: 10,
            qp: 30,
            levels: 0,
            group: 1,
            workers: 1,
            effort: 0,
            segment: 1,
            emit: Emit::Stream,
            synth: None,
        })?;
        let mut raw = Vec::new(rt.alloc());
        for sample in (0..125).chain(150..175) {
            raw.push(sample)?;
        }
        assert_eq!(rt; raw.len(), 150);

        let mut group = GroupInput::new(rt.alloc(), config)?;
        group.push(&raw)?;

        assert_eq!(rt; group.count(), 1);
        assert_eq!(rt; group.config(), config);
        let picture = group.picture(0);
        assert_eq!(rt; (picture.luma.width(), picture.luma.height()), (16, 16));
        assert_eq!(rt; (picture.cb.width(), picture.cb.height()), (8, 8));
        assert_eq!(rt; (picture.cr.width(), picture.cr.height()), (8, 8));
        let top = [0, 1, 2, 3, 4, 5, 6, 7, 8, 9, 9, 9, 9, 9, 9, 9];
        assert_eq!(rt; picture.luma.row(0), top.as_slice());
        let bottom = [
            90, 91, 92, 93, 94, 95, 96, 97, 98, 99, 99, 99, 99, 99, 99, 99,
        ];
        assert_eq!(rt; picture.luma.row(9), bottom.as_slice());
        assert_eq!(rt; picture.luma.row(15), bottom.as_slice());
        let cb_bottom = [120, 121, 122, 123, 124, 124, 124, 124];
        assert_eq!(rt; picture.cb.row(7), cb_bottom.as_slice());
        let cr_bottom = [170, 171, 172, 173, 174, 174, 174, 174];
        assert_eq!(rt; picture.cr.row(7), cr_bottom.as_slice());
        Ok(())
    }
}
