//! States of press, whose master is mis, and messages and orders to it.

/// A worker that has taken nothing yet.
pub const NO_ENTRY: &str = r#"{"Format":2,"Worker":{"Entries":[],"Master":"mis","Name":"press"}}"#;

/// The worker that has taken the part of S1 at 110.
pub const OPEN_ENTRY: &str =
    r#"{"Format":2,"Worker":{"Entries":[{"At":110,"ID":"S1","Part":{"AncestorPool":[{"JobPartID":"p0","NodeID":"n0"}],"Attr":{},"AuditPool":[],"ID":"n1","JDF":[],"JobID":"J1","JobPartID":"p1","ResourceLinkPool":[{"Usage":"Input","rRef":"r1"},{"Usage":"Output","rRef":"r2"}],"ResourcePool":[{"Attr":{},"Class":"Quantity","ID":"r2","Locked":false,"Name":"Component","SpawnIDs":["S1"],"SpawnStatus":"SpawnedRW","Status":"Unavailable"},{"Attr":{},"Class":"Consumable","ID":"r1","Locked":true,"Name":"Media","SpawnIDs":["S1"],"SpawnStatus":"SpawnedRO","Status":"Available"}],"SpawnID":"S1","Status":"Waiting","Type":"ConventionalPrinting"},"Phase":"Open"}],"Master":"mis","Name":"press"}}"#;

/// One that was told at 105 to give S2 up, which it hadn't taken.
pub const DECLINED: &str =
    r#"{"Format":2,"Worker":{"Entries":[{"At":105,"ID":"S2","Phase":"Declined"}],"Master":"mis","Name":"press"}}"#;

/// That one, which has taken the part of S1 at 110.
pub const DECLINED_AND_OPEN: &str =
    r#"{"Format":2,"Worker":{"Entries":[{"At":105,"ID":"S2","Phase":"Declined"},{"At":110,"ID":"S1","Part":{"AncestorPool":[{"JobPartID":"p0","NodeID":"n0"}],"Attr":{},"AuditPool":[],"ID":"n1","JDF":[],"JobID":"J1","JobPartID":"p1","ResourceLinkPool":[{"Usage":"Input","rRef":"r1"},{"Usage":"Output","rRef":"r2"}],"ResourcePool":[{"Attr":{},"Class":"Quantity","ID":"r2","Locked":false,"Name":"Component","SpawnIDs":["S1"],"SpawnStatus":"SpawnedRW","Status":"Unavailable"},{"Attr":{},"Class":"Consumable","ID":"r1","Locked":true,"Name":"Media","SpawnIDs":["S1"],"SpawnStatus":"SpawnedRO","Status":"Available"}],"SpawnID":"S1","Status":"Waiting","Type":"ConventionalPrinting"},"Phase":"Open"}],"Master":"mis","Name":"press"}}"#;

/// The part of S1 goes out to the worker.
pub const SUBMIT: &str =
    r#"{"JDF":{"AncestorPool":[{"JobPartID":"p0","NodeID":"n0"}],"Attr":{},"AuditPool":[],"ID":"n1","JDF":[],"JobID":"J1","JobPartID":"p1","ResourceLinkPool":[{"Usage":"Input","rRef":"r1"},{"Usage":"Output","rRef":"r2"}],"ResourcePool":[{"Attr":{},"Class":"Quantity","ID":"r2","Locked":false,"Name":"Component","SpawnIDs":["S1"],"SpawnStatus":"SpawnedRW","Status":"Unavailable"},{"Attr":{},"Class":"Consumable","ID":"r1","Locked":true,"Name":"Media","SpawnIDs":["S1"],"SpawnStatus":"SpawnedRO","Status":"Available"}],"SpawnID":"S1","Status":"Waiting","Type":"ConventionalPrinting"},"JMF":{"Command":{"ID":"Q.S1","QueueSubmissionParams":{"QueueEntryID":"S1","ReturnJMF":"jmf:mis","ReturnURL":"cid:jdf","URL":"cid:jdf"},"Type":"SubmitQueueEntry"},"ReceiverID":"press","SenderID":"mis","TimeStamp":100,"Version":"1.5"}}"#;

/// The work on S1 ends.
pub const FINISH: &str = r#"{"Order":"Finish","SpawnID":"S1","Status":"Completed"}"#;

/// The input of `new` for the worker.
pub const OPENING: &str = r#"{"Master":"mis","Worker":"press"}"#;
