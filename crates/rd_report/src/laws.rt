//! The law of the texts of the kinds that are built in.
ghost use Rattle.std.specs.Prelude.{◌≡◌, ◌++◌, codes};
ghost use Rattle.rd_kinds.specs.Shipped.{counter_kind, dictionary_kind, register_kind, set_kind, shipped_kinds};
ghost use Rattle.rd_more.specs.MoreKinds.{bag_kind, peak_kind, queue_kind, tally_kind};
ghost use Rattle.rd_print.specs.Printed.{block_text, spec_text};

/// The law of the texts of the kinds that are built in: the lines of each are these, and behind the header they are the canonical text of
/// all.
pub fn law_of_shipped_texts()
    ensures register { block_text register_kind ≡
        codes "kind register\n"
        ++ codes "method read -> value\n"
        ++ codes "method write value -> done\n"
        ++ codes "method swap value -> prev\n"
        ++ codes "commute read read when true\n"
        ++ codes "commute read write when false\n"
        ++ codes "commute read swap when value@2 = prev@2\n"
        ++ codes "commute write write when false\n"
        ++ codes "commute write swap when false\n"
        ++ codes "commute swap swap when value@1 = prev@1 and value@2 = prev@2\n" }
    ensures counter { block_text counter_kind ≡
        codes "kind counter\n"
        ++ codes "method add amount -> done\n"
        ++ codes "method get -> total\n"
        ++ codes "commute add add when true\n"
        ++ codes "commute add get when amount@1 = 0\n"
        ++ codes "commute get get when true\n" }
    ensures set { block_text set_kind ≡
        codes "kind set\n"
        ++ codes "method add item -> done\n"
        ++ codes "method remove item -> done\n"
        ++ codes "method contains item -> found\n"
        ++ codes "method size -> n\n"
        ++ codes "commute add add when item@1 != item@2 or done@1 = false and done@2 = false\n"
        ++ codes "commute add remove when item@1 != item@2 or done@1 = false and done@2 = false\n"
        ++ codes "commute add contains when item@1 != item@2 or done@1 = false\n"
        ++ codes "commute add size when done@1 = false\n"
        ++ codes "commute remove remove when item@1 != item@2 or done@1 = false and done@2 = false\n"
        ++ codes "commute remove contains when item@1 != item@2 or done@1 = false\n"
        ++ codes "commute remove size when done@1 = false\n"
        ++ codes "commute contains contains when true\n"
        ++ codes "commute contains size when true\n"
        ++ codes "commute size size when true\n" }
    ensures dictionary { block_text dictionary_kind ≡
        codes "kind dictionary\n"
        ++ codes "method put key value -> prev\n"
        ++ codes "method get key -> value\n"
        ++ codes "method size -> n\n"
        ++ codes "commute put put when key@1 != key@2 or value@1 = prev@1 and value@2 = prev@2\n"
        ++ codes "commute put get when key@1 != key@2 or value@1 = prev@1\n"
        ++ codes "commute put size when value@1 = nil and prev@1 = nil or value@1 != nil and prev@1 != nil\n"
        ++ codes "commute get get when true\n"
        ++ codes "commute get size when true\n"
        ++ codes "commute size size when true\n" }
    ensures bag { block_text bag_kind ≡
        codes "kind bag\n"
        ++ codes "method add item -> done\n"
        ++ codes "method remove item -> done\n"
        ++ codes "method count item -> n\n"
        ++ codes "commute add add when true\n"
        ++ codes "commute add remove when item@1 != item@2\n"
        ++ codes "commute add count when item@1 != item@2\n"
        ++ codes
        "commute remove remove when item@1 != item@2 or done@1 = true and done@2 = true or done@1 = false and done@2 = false\n"
        ++ codes "commute remove count when item@1 != item@2 or done@1 = false\n"
        ++ codes "commute count count when true\n" }
    ensures peak { block_text peak_kind ≡
        codes "kind peak\n"
        ++ codes "method raise amount -> prev\n"
        ++ codes "method get -> peak\n"
        ++ codes "commute raise raise when amount@1 <= prev@1 and amount@2 <= prev@2\n"
        ++ codes "commute raise get when amount@1 <= prev@1\n"
        ++ codes "commute get get when true\n" }
    ensures queue { block_text queue_kind ≡
        codes "kind queue\n"
        ++ codes "method enqueue item -> done\n"
        ++ codes "method dequeue -> got\n"
        ++ codes "method size -> n\n"
        ++ codes "commute enqueue enqueue when false\n"
        ++ codes "commute enqueue dequeue when got@2 != nil and item@1 != got@2\n"
        ++ codes "commute enqueue size when false\n"
        ++ codes "commute dequeue dequeue when got@1 = nil and got@2 = nil\n"
        ++ codes "commute dequeue size when got@1 = nil\n"
        ++ codes "commute size size when true\n" }
    ensures tally { block_text tally_kind ≡
        codes "kind tally\n"
        ++ codes "method hit item -> done\n"
        ++ codes "method count item -> n\n"
        ++ codes "method total -> n\n"
        ++ codes "commute hit hit when true\n"
        ++ codes "commute hit count when item@1 != item@2\n"
        ++ codes "commute hit total when false\n"
        ++ codes "commute count count when true\n"
        ++ codes "commute count total when true\n"
        ++ codes "commute total total when true\n" }
    ensures text { spec_text shipped_kinds ≡
        codes "rdspec 1\n" ++ block_text register_kind ++ block_text counter_kind ++ block_text set_kind ++ block_text dictionary_kind
        ++ block_text bag_kind ++ block_text peak_kind ++ block_text queue_kind ++ block_text tally_kind }
{}
