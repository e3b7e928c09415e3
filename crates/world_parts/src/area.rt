//! What routines read and change of the area's objects. A number without an object has nothing, and
//! a change of it changes nothing.
ghost use Rattle.std.specs.Prelude.{◌≡◌, [], filter, not, OnOk, OnErr, pos};
ghost use Rattle.area_rules.specs.Area.{object};
ghost use Rattle.local_variables.specs.Variables.{IntVar, TextVar, int_named, is_int, is_text, put};
ghost use Rattle.local_variables.specs.Variables.{text_named};
ghost use Rattle.world_rules.specs.Arguments.{int_at, object_at, text_at};
ghost use Rattle.world_rules.specs.Rows.{changed_variables, read};

use crate::args::{int_at, object_at, string_at, text_at};
use crate::parts::Parts;
use nwq_value::{Args, NoMemory};

impl<X: Drop> Parts<X> {
    /// The tag of an object.
    pub(crate) fn tag(&self, o: u32) -> &[u8]
        ensures tag { result.now
            ≡ read o (object self.now.world.area o).tag [] self.now.world }
    {
        if self.is_valid(o) {
            self.area.tag(o)
        } else {
            &[]
        }
    }

    /// GetLocalInt.
    pub(crate) fn get_local_int(&self, args: &Args) -> i32
        ensures value { result ≡ read (object_at 0 args.now)
            (int_named (text_at 1 args.now) (object self.now.world.area
            (object_at 0 args.now)).vars)
            (pos 0) self.now.world }
    {
        let o = object_at(args, 0);
        if self.is_valid(o) {
            self.area.get_int(o, text_at(args, 1))
        } else {
            0
        }
    }

    /// GetLocalString.
    pub(crate) fn get_local_text(&self, args: &Args) -> &[u8]
        ensures value { result.now ≡ read (object_at 0 args.now)
            (text_named (text_at 1 args.now) (object self.now.world.area
            (object_at 0 args.now)).vars)
            [] self.now.world }
    {
        let o = object_at(args, 0);
        if self.is_valid(o) {
            self.area.get_text(o, text_at(args, 1))
        } else {
            &[]
        }
    }

    /// SetLocalInt.
    pub(crate) fn put_local_int(&mut self, args: &Args) -> Result<(), NoMemory>
        ensures ok { OnOk result (self.new.world ≡ changed_variables (object_at 0 args.now)
            (put (IntVar (text_at 1 args.now) (int_at 2 args.now))) self.old.world) }
        ensures err { OnErr result (self.new.world ≡ self.old.world) }
        ensures posts { self.new.posts ≡ self.old.posts }
    {
        let o = object_at(args, 0);
        if self.is_valid(o) {
            self.area.set_int(o, text_at(args, 1), int_at(args, 2))
        } else {
            Ok(())
        }
    }

    /// SetLocalString.
    pub(crate) fn put_local_text(&mut self, args: &Args) -> Result<(), NoMemory>
        ensures ok { OnOk result (self.new.world ≡ changed_variables (object_at 0 args.now)
            (put (TextVar (text_at 1 args.now) (text_at 2 args.now))) self.old.world) }
        ensures err { OnErr result (self.new.world ≡ self.old.world) }
        ensures posts { self.new.posts ≡ self.old.posts }
    {
        let o = object_at(args, 0);
        if self.is_valid(o) {
            let text = string_at(self.alloc(), args, 2)?;
            self.area.set_text(o, text_at(args, 1), text)
        } else {
            Ok(())
        }
    }

    /// DeleteLocalInt.
    pub(crate) fn drop_local_int(&mut self, args: &Args)
        ensures gone { self.new.world ≡ changed_variables (object_at 0 args.now)
            (filter (λ v. not (is_int (text_at 1 args.now) v))) self.old.world }
        ensures posts { self.new.posts ≡ self.old.posts }
    {
        let o = object_at(args, 0);
        if self.is_valid(o) {
            self.area.delete_int(o, text_at(args, 1));
        }
    }

    /// DeleteLocalString.
    pub(crate) fn drop_local_text(&mut self, args: &Args)
        ensures gone { self.new.world ≡ changed_variables (object_at 0 args.now)
            (filter (λ v. not (is_text (text_at 1 args.now) v))) self.old.world }
        ensures posts { self.new.posts ≡ self.old.posts }
    {
        let o = object_at(args, 0);
        if self.is_valid(o) {
            self.area.delete_text(o, text_at(args, 1));
        }
    }
}
