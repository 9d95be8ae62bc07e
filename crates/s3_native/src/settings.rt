//! Settings that nothing sets, and the access control list that an object is given.
#![tactic(auto, using(crate::proofs::Steps::plain))]

ghost use Rattle.std.specs.Prelude.{◌≡◌, IfOk};
ghost use Rattle.s3_machine.specs.declared.operation.Op.TheVariants.{OnObjects};
ghost use Rattle.s3_machine.specs.declared.operation.ObjectsOp.TheVariants.{GetSetting, PutObjectAcl};
ghost use Rattle.s3_machine.specs.Step.{S3Step, unset_reply};

use crate::native::Native;
use gate_base::{Copying, Memory};
use s3_machine::{Code, Label, ObjectAcl, ObjectsReply, Reply, SettingRead, Unset};

/// What is answered of a setting that nothing sets.
fn native_unset_reply(unset: &Unset) -> Result<Reply, Memory>
    ensures { IfOk result (λ reply. reply ≡ unset_reply unset.now) }
{
    match unset {
        Unset::Named(code) => Ok(Reply::Refused(Code::NotSet(*code))),
        Unset::Empty(page) => Ok(Reply::OfObjects(ObjectsReply::Setting(page.copy()?))),
    }
}

impl Native {
    pub(crate) fn put_object_acl(&self, set: &ObjectAcl, label: &Label) -> Reply
        ensures { S3Step self.now.settings self.now.state (OnObjects (PutObjectAcl set.now))
            label.now result self.now.state }
    {
        let Some(found) = self.buckets.get(set.bucket.bytes()) else {
            return Reply::Refused(Code::NoSuchBucket);
        };
        if found.object(set.key.bytes()).is_none() {
            return Reply::Refused(Code::NoSuchKey);
        }
        if found.has_another_acl(Some(set.acl)) {
            return Reply::Refused(Code::AccessControlListNotSupported);
        }
        Reply::Done
    }

    pub(crate) fn get_setting(&self, read: &SettingRead, label: &Label) -> Result<Reply, Memory>
        ensures { IfOk result (λ reply. S3Step self.now.settings self.now.state
            (OnObjects (GetSetting read.now)) label.now reply self.now.state) }
    {
        let Some(found) = self.buckets.get(read.bucket.bytes()) else {
            return Ok(Reply::Refused(Code::NoSuchBucket));
        };
        if let Some(key) = &read.key {
            if found.object(key.bytes()).is_none() {
                return Ok(Reply::Refused(Code::NoSuchKey));
            }
        }
        native_unset_reply(&read.unset)
    }
}
